//! What stores answer, in words, and what is expected of it.
use std::alloc::{AllocError, Global};
use std::test::Fail;
use wap_base::Text;
use wap_devices::{Fetched, StoreErr};

/// Fails where something else came than is wanted.
pub(crate) fn expect(came: &str, wanted: &str) -> Result<(), Fail> {
    if came == wanted {
        Ok(())
    } else {
        Err(Fail::new(format_args!("wanted {wanted:?}, came {came:?}")))
    }
}

/// What a store answers for a name, in a word.
pub(crate) fn word_of(answer: &Result<Fetched, StoreErr>) -> &'static str {
    match answer {
        Ok(Fetched::Found(bytes)) if bytes.as_slice() == b"page".as_slice() => "page",
        Ok(Fetched::Found(_)) => "other bytes",
        Ok(Fetched::Missing) => "missing",
        Err(StoreErr::Failed) => "failed",
        Err(StoreErr::NoMemory) => "no memory",
    }
}

/// Names, a blank after each.
fn row(alloc: Global, names: &[Text]) -> Result<String, AllocError> {
    let mut row = String::new(alloc);
    for name in names {
        row.push_str(name.as_str())?;
        row.push(' ')?;
    }
    Ok(row)
}

/// What a store lists: names, a blank after each, or a word.
pub(crate) fn row_of(
    alloc: Global,
    list: Result<Vec<Text>, StoreErr>,
) -> Result<String, AllocError> {
    match list {
        Ok(names) => row(alloc, &names),
        Err(StoreErr::Failed) => String::from_str(alloc, "failed"),
        Err(StoreErr::NoMemory) => String::from_str(alloc, "no memory"),
    }
}
