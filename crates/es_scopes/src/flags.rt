// The flags of scopes, symbols and references.

ghost use Rattle.std.specs.Prelude.{⊤, ◌≡◌, [], ◌∷◌, bit_or, codes};

use bitflags::{Flag, Flags, bitflag_items};

/// What a scope is: the scope of the program, of a function, and so on.
#[derive(Debug, Clone, Copy, PartialEq, Eq)]
pub struct ScopeFlags(u8);

bitflag_items! {
    impl ScopeFlags: u8 {
        const TOP = 1;
        const FUNCTION = 2;
        const ARROW = 4;
        const STATIC_BLOCK = 8;
        const CONSTRUCTOR = 16;
        const GET = 32;
        const SET = 64;
        const STRICT = 128;
    }
}

impl ScopeFlags {
    /// None of the flags.
    pub const NONE: ScopeFlags = ScopeFlags(0);

    /// The flags of both.
    pub fn with(self, other: ScopeFlags) -> ScopeFlags
        ensures { result.0 ≡ bit_or self.0 other.0 }
    {
        ScopeFlags(self.0 | other.0)
    }
}

impl Flags for ScopeFlags {
    type Bits = u8;

    ghost exact = { ⊤ };

    ghost table = { (codes "TOP", 1) ∷ (codes "FUNCTION", 2) ∷ (codes "ARROW", 4) ∷ (codes "STATIC_BLOCK", 8)
        ∷ (codes "CONSTRUCTOR", 16) ∷ (codes "GET", 32) ∷ (codes "SET", 64) ∷ (codes "STRICT", 128) ∷ [] };

    ghost set_of = { λ f. f.0 };

    fn flags<'a>() -> &'a [Flag<ScopeFlags>] {
        ScopeFlags::FLAGS
    }

    fn bits(&self) -> u8 {
        self.0
    }

    fn from_bits_retain(bits: u8) -> ScopeFlags {
        ScopeFlags(bits)
    }
}

/// What declares a symbol.
#[derive(Debug, Clone, Copy, PartialEq, Eq)]
pub struct SymbolFlags(u8);

bitflag_items! {
    impl SymbolFlags: u8 {
        const VAR = 1;
        const LET = 2;
        const CONST = 4;
        const CLASS = 8;
        const FUNCTION = 16;
        const PARAM = 32;
        const CATCH = 64;
        const IMPORT = 128;
    }
}

impl SymbolFlags {
    /// None of the flags.
    pub const NONE: SymbolFlags = SymbolFlags(0);

    /// The flags of both.
    pub fn with(self, other: SymbolFlags) -> SymbolFlags
        ensures { result.0 ≡ bit_or self.0 other.0 }
    {
        SymbolFlags(self.0 | other.0)
    }
}

impl Flags for SymbolFlags {
    type Bits = u8;

    ghost exact = { ⊤ };

    ghost table = { (codes "VAR", 1) ∷ (codes "LET", 2) ∷ (codes "CONST", 4) ∷ (codes "CLASS", 8)
        ∷ (codes "FUNCTION", 16) ∷ (codes "PARAM", 32) ∷ (codes "CATCH", 64) ∷ (codes "IMPORT", 128) ∷ [] };

    ghost set_of = { λ f. f.0 };

    fn flags<'a>() -> &'a [Flag<SymbolFlags>] {
        SymbolFlags::FLAGS
    }

    fn bits(&self) -> u8 {
        self.0
    }

    fn from_bits_retain(bits: u8) -> SymbolFlags {
        SymbolFlags(bits)
    }
}

/// How a reference uses its name.
#[derive(Debug, Clone, Copy, PartialEq, Eq)]
pub struct ReferenceFlags(u8);

bitflag_items! {
    impl ReferenceFlags: u8 {
        const READ = 1;
        const WRITE = 2;
    }
}

impl ReferenceFlags {
    /// None of the flags.
    pub const NONE: ReferenceFlags = ReferenceFlags(0);

    /// The flags of both.
    pub fn with(self, other: ReferenceFlags) -> ReferenceFlags
        ensures { result.0 ≡ bit_or self.0 other.0 }
    {
        ReferenceFlags(self.0 | other.0)
    }
}

impl Flags for ReferenceFlags {
    type Bits = u8;

    ghost exact = { ⊤ };

    ghost table = { (codes "READ", 1) ∷ (codes "WRITE", 2) ∷ [] };

    ghost set_of = { λ f. f.0 };

    fn flags<'a>() -> &'a [Flag<ReferenceFlags>] {
        ReferenceFlags::FLAGS
    }

    fn bits(&self) -> u8 {
        self.0
    }

    fn from_bits_retain(bits: u8) -> ReferenceFlags {
        ReferenceFlags(bits)
    }
}
