//! Why a page is refused.
ghost use Rattle.std.specs.Prelude.{◌≡◌};
ghost use Rattle.wap_pages.specs.Faults.{document_error, deck_error, unit_error, verify_error};
ghost use Rattle.wap_pages.specs.Faults.{source_error};
ghost use Rattle.wap_pages.specs.declared.fault.PageErr.TheVariants.{NoMemory};

use wap_codegen::CompileFault;
use wap_deckcheck::DeckFault;
use wap_image::context_parts::{ImageFault, SaveFault};
use wap_unit::UnitFault;
use wap_verify::VerifyFault;
use wap_wbxml::DocFault;

/// Why a page is refused. A fault in it can say that memory ran out; no call here answers that.
#[derive(Debug, Drop, PartialEq, Eq)]
pub enum PageFault {
    /// There is no such page.
    Missing,
    /// It is no document.
    Document(DocFault),
    /// It is a document whose deck isn't good.
    Deck(DeckFault),
    /// It is no source of a script that can be compiled.
    Source(CompileFault),
    /// It is no compiled unit.
    Unit(UnitFault),
    /// It is a compiled unit that may not be run.
    Verify(VerifyFault),
    /// It is no text in UTF-8.
    NotText,
    /// It is no image of a context. `judge` never says so, nor the two below.
    Image(ImageFault),
    /// A context has no image.
    Save(SaveFault),
    /// It is the page of a card, and no deck.
    NotDeck,
}

/// Why a call on a page gives nothing.
#[derive(Debug, Drop, PartialEq, Eq)]
pub enum PageErr {
    /// The page is refused, for this.
    Refused(PageFault),
    /// Memory ran out, which says nothing of the page.
    NoMemory,
}

impl From<wap_base::NoMemory> for PageErr {
    ghost from_gives = { λ _ error. error ≡ NoMemory };

    fn from(_error: wap_base::NoMemory) -> PageErr {
        PageErr::NoMemory
    }
}

impl From<DocFault> for PageErr {
    ghost from_gives = { λ fault error. error ≡ document_error fault };

    fn from(fault: DocFault) -> PageErr {
        if fault == DocFault::NoMemory {
            return PageErr::NoMemory;
        }
        PageErr::Refused(PageFault::Document(fault))
    }
}

impl From<DeckFault> for PageErr {
    ghost from_gives = { λ fault error. error ≡ deck_error fault };

    fn from(fault: DeckFault) -> PageErr {
        if fault == DeckFault::NoMemory {
            return PageErr::NoMemory;
        }
        PageErr::Refused(PageFault::Deck(fault))
    }
}

impl From<UnitFault> for PageErr {
    ghost from_gives = { λ fault error. error ≡ unit_error fault };

    fn from(fault: UnitFault) -> PageErr {
        if fault == UnitFault::NoMemory {
            return PageErr::NoMemory;
        }
        PageErr::Refused(PageFault::Unit(fault))
    }
}

impl From<VerifyFault> for PageErr {
    ghost from_gives = { λ fault error. error ≡ verify_error fault };

    fn from(fault: VerifyFault) -> PageErr {
        if fault == VerifyFault::NoMemory {
            return PageErr::NoMemory;
        }
        PageErr::Refused(PageFault::Verify(fault))
    }
}

impl From<CompileFault> for PageErr {
    ghost from_gives = { λ fault error. error ≡ source_error fault };

    fn from(fault: CompileFault) -> PageErr {
        if fault == CompileFault::NoMemory {
            return PageErr::NoMemory;
        }
        PageErr::Refused(PageFault::Source(fault))
    }
}
