// Lists, names, literals, and the table of kinds.

use es_base::ids::NodeId;
use es_base::kind::Kind;
use es_base::list::List;
use es_base::literal::LiteralValue;
use es_base::name::Name;
use es_base::operator::{LogicalOperator, Word};
use es_base::places::is_target_place;
use es_base::shape::Shape;
use es_base::strings::{
    begins_with, is_among, is_foreign_name, is_number_string, is_word, word_of,
};
use es_base::table::{Place, Sort, Words, all_kinds, estree_name, fits, members};
use es_base::word::{all_of_set, word_str};
use std::cmp::Ordering;
use std::test::Fail;

/// Whether two values are strings with the same value and source text.
fn same_string(a: &LiteralValue, b: &LiteralValue) -> bool {
    match (a, b) {
        (LiteralValue::String { value, raw }, LiteralValue::String { value: v, raw: r }) => {
            value == v && raw == r
        }
        _ => false,
    }
}

#[test]
fn values_are_what_they_hold(rt: HostRuntime) -> Result<(), Fail> {
    let alloc = rt.alloc();
    let mut list: List<u32> = List::new(alloc);
    assert!(rt; list.is_empty());
    list.push(1)?;
    list.push(3)?;
    list.insert(1, 2)?;
    assert_eq!(rt; list.as_slice(), [1, 2, 3].as_slice());
    list.as_mut_slice()[0] = 7;
    assert_eq!(rt; list.remove(1), 2);
    assert_eq!(rt; list.len(), 2);
    let more = List::from_vec([4, 5].to_vec(alloc)?);
    assert_eq!(rt; more.as_slice(), [4, 5].as_slice());

    let name = Name::new(alloc, "größe")?;
    let copy = name.try_clone(alloc)?;
    assert_eq!(rt; copy.as_str(), "größe");
    assert!(rt; name == copy);
    let shorter = Name::new(alloc, "größ")?;
    assert!(rt; name != shorter);
    assert_eq!(rt; shorter.cmp(&name), Ordering::Less);

    let raw = Some(Name::new(alloc, "'a'")?);
    let value = LiteralValue::String {
        value: Name::new(alloc, "a")?,
        raw,
    };
    assert!(rt; same_string(&value.try_clone(alloc)?, &value));

    assert_eq!(rt; NodeId::DUMMY, NodeId(4_294_967_295));
    assert_eq!(rt; Shape::S1.number(), 1);
    assert_eq!(rt; Shape::S8.number(), 8);
    Ok(())
}

#[test]
fn the_table_has_rows(rt: HostRuntime) {
    assert_eq!(rt; all_kinds().len(), 82);
    assert_eq!(rt; estree_name(Kind::PrivateField), "MemberExpression");
    let rows = members(Kind::ForOfStatement);
    assert_eq!(rt; rows.len(), 4);
    assert_eq!(rt; rows[3].name, "await");
    assert_eq!(rt; rows[2].sort, Sort::Child(Place::Statement));
    assert!(rt;
        fits(Place::ExpressionOrSuper, Kind::Super) && !fits(Place::Expression, Kind::Super)
    );
    assert!(rt; fits(Place::Statement, Kind::ClassDeclaration));
    assert!(rt; !fits(Place::Expression, Kind::ClassDeclaration));
    assert!(rt; is_target_place(Place::ForLeft) && !is_target_place(Place::Expression));
    let coalesce = Word::LogicalOperator(LogicalOperator::Coalesce);
    assert_eq!(rt; word_str(coalesce), "??");
    assert_eq!(rt; word_of("??", Words::LogicalOperator), Some(coalesce));
    assert_eq!(rt; word_of("+", Words::LogicalOperator), None);
    assert_eq!(rt; all_of_set(Words::LogicalOperator).len(), 3);
    assert!(rt; is_word("body", "body") && !is_word("body", "Body"));
    assert!(rt; is_among("raw", &["value", "raw"]) && !is_among("raw", &["value"]));
    assert!(rt; begins_with("TSTypeAnnotation", "TS") && !begins_with("T", "TS"));
    assert!(rt; is_foreign_name("JSXElement") && is_foreign_name("Decorator"));
    assert!(rt; !is_foreign_name("Identifier"));
    assert!(rt; is_number_string(".5") && is_number_string("0x1") && !is_number_string("-1"));
    assert!(rt; !is_number_string(""));
}
