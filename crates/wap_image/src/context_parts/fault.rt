//! Why bytes are no image, and why a context has none.
ghost use Rattle.std.specs.Prelude.{◌≡◌};

use wap_base::NoMemory;

/// Why bytes are no image of a context: the first fault from the left. But for `Short` its place is
/// the first byte of the item that is refused.
#[derive(Clone, Copy, Debug, PartialEq, Eq)]
pub enum ImageFault {
    /// The first three bytes are others than those with which an image begins.
    Head,
    /// The input ends inside an item; the place is the input's length.
    Short { at: usize },
    /// A number of several bytes is past 2^32 - 1.
    Number { at: usize },
    /// A text isn't UTF-8.
    Text { at: usize },
    /// A text is no name of a variable, or doesn't come after the name before it.
    Name { at: usize },
    /// A number that may not stand there, or a timer that may not.
    Range { at: usize },
    /// A text isn't how a URL of http with a host and without a fragment is written.
    Url { at: usize },
    /// Bytes follow the last item.
    Rest { at: usize },
    NoMemory,
}

impl From<NoMemory> for ImageFault {
    ghost use Rattle.wap_image.specs.declared.context_parts.fault.ImageFault.TheVariants as image;

    ghost from_gives = { λ _ fault. fault ≡ image.NoMemory };

    fn from(_error: NoMemory) -> ImageFault {
        ImageFault::NoMemory
    }
}

/// Why a context has no image. Where both faults apply, the one that is listed first is reported.
#[derive(Clone, Copy, Debug, PartialEq, Eq)]
pub enum SaveFault {
    /// As many words were drawn as are counted, or more.
    Drawn,
    /// The number of a card, or the length of a URL or of a variable's name, is past 2^32 - 1.
    Card,
    NoMemory,
}

impl From<NoMemory> for SaveFault {
    ghost use Rattle.wap_image.specs.declared.context_parts.fault.SaveFault.TheVariants as save;

    ghost from_gives = { λ _ fault. fault ≡ save.NoMemory };

    fn from(_error: NoMemory) -> SaveFault {
        SaveFault::NoMemory
    }
}
