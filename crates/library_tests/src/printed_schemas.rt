//! A schema and its canonical text, which is read as the same schema.

use schema_core::*;
use std::process::Abort;
use std::test::Fail;

/// Customers with a finite domain, rules and a script.
const CUSTOMERS: &str =
    "table cust 'cust.csv'\nattr CC in '01', '44'\nattr AC\nattr zip\nattr street\nattr city\nrules 'r'\nscript 's'\n";

/// A file is read, and printed as this text, which is read as the same schema.
fn printed_as(rt: &(impl Abort + AllocGlobal), file: &[u8], canonical: &str) -> Result<(), Fail> {
    let schema = parse_schema(rt.alloc(), file, &Limits::standard())?;
    let printed = print_schema(rt.alloc(), &schema)?;
    assert_eq!(rt; printed.as_slice(), canonical.as_bytes());
    let again = parse_schema(rt.alloc(), printed.as_slice(), &Limits::standard())?;
    assert!(rt; again == schema);
    Ok(())
}

#[test]
fn printed_and_read_again(rt: HostRuntime) -> Result<(), Fail> {
    printed_as(&rt, CUSTOMERS.as_bytes(), CUSTOMERS)?;
    printed_as(&rt, b"", "")?;
    printed_as(
        &rt,
        b"script 's'\nmaster t 't'\n\n# c\nattr a\nrules 'r'",
        "master t 't'\nattr a\nrules 'r'\nscript 's'\n",
    )?;
    printed_as(
        &rt,
        b"table t'a\\'\\\\\\n\\rb'\r\n\tattr a  in'x' ,''\r\nattr b\ntable u't'\nattr a\n",
        "table t 'a\\'\\\\\\n\\rb'\nattr a in 'x', ''\nattr b\ntable u 't'\nattr a\n",
    )
}
