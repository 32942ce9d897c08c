//! What stands before a document's body: version, public identifier, character set and string
//! table.
ghost use Rattle.std.specs.Prelude.{◌≡◌, codes};
ghost use Rattle.std.specs.Option.{option_map};
ghost use Rattle.wap_base.specs.Outcome.{Meets};
ghost use Rattle.wap_tokens.specs.markup.Documents.{is_version, is_public, public_named};
ghost use Rattle.wap_tokens.specs.markup.Documents.{is_numbered, is_by_name};
ghost use Rattle.wap_wbxml.specs.declared.fault.DocFault.TheVariants.{NoMemory};
ghost use Rattle.wap_wbxml.specs.reading.Whole.{version_at, identifier_at, charset_at, public_of};

use crate::DocFault;
use crate::fronts::{read_number, string_from};
use wap_base::Charset;
use wap_tokens::markup::{DocumentType, Identifier, VERSION, WML_1_1, WML_1_2, WML_1_3};

/// The version.
#[tactic(auto, unfolding(crate::specs::reading::Whole::version_at))]
pub(crate) fn read_version(total: usize, bytes: &[u8]) -> Result<(u8, &[u8]), DocFault>
    ensures { Meets NoMemory (λ read. (read.0, read.1.now)) result (version_at total bytes.now) }
{
    let Some((version, rest)) = bytes.split_first() else {
        return Err(DocFault::Short { at: total });
    };
    if !(1..=VERSION).contains(version) {
        return Err(DocFault::Version);
    }
    Ok((*version, rest))
}

/// The public identifier, by its number or by the index of its name.
#[tactic(auto, unfolding(crate::specs::reading::Whole::identifier_at))]
pub(crate) fn read_identifier(
    kind: DocumentType,
    total: usize,
    bytes: &[u8],
) -> Result<(Identifier, &[u8]), DocFault>
    ensures { Meets NoMemory (λ read. (read.0, read.1.now)) result
        (identifier_at kind total bytes.now) }
{
    let (number, rest) = read_number(total, bytes)?;
    if is_by_name(kind, number) {
        let (index, rest) = read_number(total, rest)?;
        return Ok((Identifier::Named(index), rest));
    }
    if !is_numbered(kind, number) {
        return Err(DocFault::PublicId);
    }
    Ok((Identifier::Numbered(number), rest))
}

/// Whether a number is a public identifier of a document type.
fn is_numbered(kind: DocumentType, number: u32) -> bool
    ensures { result ≡ is_numbered kind number }
{
    match kind {
        DocumentType::Wml => is_public(number),
        DocumentType::Other(only) => number == only,
    }
}

/// Whether the index of a name stands after a number.
fn is_by_name(kind: DocumentType, number: u32) -> bool
    ensures { result ≡ is_by_name kind number }
{
    match kind {
        DocumentType::Wml => number == 0,
        DocumentType::Other(_) => false,
    }
}

fn is_public(number: u32) -> bool
    ensures { result ≡ is_public number }
{
    number == WML_1_1 || number == WML_1_2 || number == WML_1_3
}

/// The character set, with its number.
#[tactic(auto, unfolding(crate::specs::reading::Whole::charset_at))]
pub(crate) fn read_charset(total: usize, bytes: &[u8]) -> Result<((u32, Charset), &[u8]), DocFault>
    ensures { Meets NoMemory (λ read. (read.0, read.1.now)) result (charset_at total bytes.now) }
{
    let (number, rest) = read_number(total, bytes)?;
    match Charset::of_number(number) {
        Some(charset) => Ok(((number, charset), rest)),
        None => Err(DocFault::Charset),
    }
}

/// The number of a public identifier, whose name the string table may have.
#[tactic(auto, unfolding(crate::specs::reading::Whole::public_of))]
pub(crate) fn find_public(table: &[u8], identifier: Identifier) -> Result<u32, DocFault>
    ensures { Meets NoMemory (λ number. number) result (public_of table.now identifier) }
{
    match identifier {
        Identifier::Numbered(number) => Ok(number),
        Identifier::Named(index) => match public_named(string_from(table, index as usize)) {
            Some(number) => Ok(number),
            None => Err(DocFault::PublicId),
        },
    }
}

#[tactic(auto, unfolding(wap_tokens::specs::markup::Documents::public_named))]
fn public_named(name: &[u8]) -> Option<u32>
    ensures { result ≡ public_named name.now }
{
    if name == b"-//WAPFORUM//DTD WML 1.1//EN".as_slice() {
        return Some(WML_1_1);
    }
    if name == b"-//WAPFORUM//DTD WML 1.2//EN".as_slice() {
        return Some(WML_1_2);
    }
    if name == b"-//WAPFORUM//DTD WML 1.3//EN".as_slice() {
        return Some(WML_1_3);
    }
    None
}
