//! The identifiers of documents of WML's family that aren't read (rule 1).
ghost use Rattle.std.specs.Prelude.{◌≡◌, ◌≢◌, [], ◌∷◌, IfOk};
ghost use Rattle.wap_tokens.specs.declared.markup.codes.TheConstants.{WML_1_3};
ghost use Rattle.wap_mend.specs.inside.Frames.{IsStill};
ghost use Rattle.wap_mend.specs.Identifiers.{known};

use crate::change::{Change, Lost, What};
use std::alloc::Global;
use wap_base::{Bytes, NoMemory, Rows};
use wap_tokens::markup::WML_1_3;

/// A byte, the number of WML 1.3, and others.
fn with_known(alloc: Global, version: u8, rest: &[u8]) -> Result<Bytes, NoMemory>
    ensures { IfOk result (λ bytes. bytes ≡ version ∷ WML_1_3 ∷ rest.now) }
{
    let mut bytes = Bytes::new(alloc);
    bytes.push(version)?;
    bytes.push(WML_1_3 as u8)?;
    bytes.add(rest)?;
    Ok(bytes)
}

/// The bytes of a document of WML 1.0, or of Phone.com's WML, as those of one of WML 1.3.
pub(crate) fn known(alloc: Global, bytes: &[u8]) -> Result<Option<Bytes>, NoMemory>
    ensures { IfOk result (λ other. other ≡ known bytes.now) }
{
    match bytes {
        [version, 2, rest @ ..] => Ok(Some(with_known(alloc, *version, rest)?)),
        [version, 0xa2, 8, rest @ ..] => Ok(Some(with_known(alloc, *version, rest)?)),
        _ => Ok(None),
    }
}

/// Changes after that of the identifier.
pub(crate) fn with_identifier(
    alloc: Global,
    changes: Rows<Change>,
) -> Result<Rows<Change>, NoMemory>
    ensures some { IfOk result (λ all. all ≢ []) }
    ensures still { IfOk result (λ all. IsStill changes all) }
{
    let mut all = Vec::new(alloc);
    all.push(Change {
        path: Rows::new(alloc),
        what: What::Identifier,
        lost: Lost::new(alloc),
        came: Rows::new(alloc),
    })?;
    all.append(&mut changes.into_vec())?;
    Ok(Rows::from_vec(all))
}
