//! Why bytes that were pushed are no indication.
ghost use Rattle.std.specs.Prelude.{◌≡◌};
ghost use Rattle.wap_push.specs.declared.fault.PushFault.TheVariants.{NoMemory};
ghost use Rattle.wap_push.specs.Pushes.{push_error};

use wap_wbxml::DocFault;

/// Why bytes that were pushed are no indication: the first of these that is so.
#[derive(Clone, Copy, Debug, PartialEq, Eq)]
pub enum PushFault {
    /// They are no document of indications. This fault is never that memory ran out.
    Document(DocFault),
    /// The root isn't `si`.
    Root,
    /// The elements in the root aren't one `indication`, without an element in it, and after it at
    /// most one `info`.
    Child,
    /// The time at which it was made isn't one to seven bytes, each of two decimal digits.
    Created,
    /// It has no identifier and no URL.
    NoId,
    /// Memory ran out, which says nothing of the bytes.
    NoMemory,
}

impl From<wap_base::NoMemory> for PushFault {
    ghost from_gives = { λ _ fault. fault ≡ NoMemory };

    fn from(_error: wap_base::NoMemory) -> PushFault {
        PushFault::NoMemory
    }
}

impl From<DocFault> for PushFault {
    ghost from_gives = { λ fault error. error ≡ push_error fault };

    fn from(fault: DocFault) -> PushFault {
        if fault == DocFault::NoMemory {
            return PushFault::NoMemory;
        }
        PushFault::Document(fault)
    }
}
