//! Rules and their canonical text, which is read as the same rules.

use rule_parser::*;
use schema_core::{Limits, parse_schema};
use std::alloc::Global;
use std::test::Fail;

const SCHEMA: &[u8] =
    b"table cust 'c'\nattr CC in '01', '44'\nattr AC\nattr zip\nattr city\nattr gives\ntable orders 'o'\nattr buyer\nattr zip\nmaster book 'b'\nattr code\nattr town\n";

/// Each rule as it may be written, and as it is printed.
const RULES: [(&str, &str); 10] = [
    ("# none\n\n", ""),
    (
        "cfd f cust:[CC,zip]->[city]\nrow '44',_||_\n\trow '01','z'||'Z\\'s'",
        "cfd f cust: [CC, zip] -> [city]\nrow '44', _ || _\nrow '01', 'z' || 'Z\\'s'\n",
    ),
    (
        "cfd f cust: [] -> [CC, AC]\nrow||'44','1'",
        "cfd f cust: [] -> [CC, AC]\nrow || '44', '1'\n",
    ),
    (
        "cfd f cust: [CC] -> [AC]\nrow in{'44','01'}||not {'b','a'}",
        "cfd f cust: [CC] -> [AC]\nrow in {'44', '01'} || not {'b', 'a'}\n",
    ),
    (
        "cind i orders [buyer;] in cust[zip;CC]\nrow||'44'",
        "cind i orders[buyer; ] in cust[zip; CC]\nrow || '44'\n",
    ),
    (
        "cind i orders[;buyer,zip]in cust[;]\nrow 'x','y'||",
        "cind i orders[; buyer, zip] in cust[; ]\nrow 'x', 'y' ||\n",
    ),
    (
        "edit e cust using book:zip=code gives city=town",
        "edit e cust using book: zip=code gives city=town\n",
    ),
    (
        "edit e cust using book:zip=code,AC=town gives city=town when CC='44',AC!='x',city=_",
        "edit e cust using book: zip=code, AC=town gives city=town when CC='44', AC!='x', city=_\n",
    ),
    (
        "edit e cust using book: gives = code gives city = town",
        "edit e cust using book: gives=code gives city=town\n",
    ),
    (
        "edit e cust using book: zip=code gives city=town\ncfd f cust: [zip] -> [city]\nrow _ || _\n",
        "edit e cust using book: zip=code gives city=town\ncfd f cust: [zip] -> [city]\nrow _ || _\n",
    ),
];

/// A schema with rules in their canonical text.
const CUSTOMERS: (&[u8], &str) = (
    b"table cust 'cust.csv'\nattr CC in '01', '44'\nattr AC\nattr zip\nattr street\nattr city\nrules 'r'\nscript 's'\n",
    "cfd f1 cust: [CC, zip] -> [street]\nrow '44', _ || _\ncfd f2 cust: [AC] -> [city]\nrow '131' || 'EDI'\n",
);

fn is_printed(alloc: Global, schema: &[u8], rules: &str, canonical: &str) -> Result<bool, Fail> {
    let limits = Limits::standard();
    let schema = parse_schema(alloc, schema, &limits)?;
    let book = parse_rules(alloc, schema, rules.as_bytes(), &limits)?;
    let printed = print_rules(alloc, &book)?;
    Ok(printed.as_slice() == canonical.as_bytes())
}

#[test]
fn rules_are_printed_and_read_again(rt: HostRuntime) -> Result<(), Fail> {
    for (rules, canonical) in RULES {
        assert!(rt;
            is_printed(rt.alloc(), SCHEMA, rules, canonical)?,
            "{rules}"
        );
        assert!(rt;
            is_printed(rt.alloc(), SCHEMA, canonical, canonical)?,
            "{canonical}"
        );
    }
    let (schema, rules) = CUSTOMERS;
    assert!(rt; is_printed(rt.alloc(), schema, rules, rules)?);
    Ok(())
}
