//! The bytes with which an image begins, and those of the kinds of timers.
ghost use Rattle.std.specs.Prelude.{◌≡◌};
ghost use Rattle.wap_image.specs.Items.{timer_kind};

/// The first byte of an image.
pub const LETTER_W: u8 = b'W';
/// Its second byte.
pub const LETTER_I: u8 = b'I';
/// Its third byte, the number of the format.
pub const FORMAT: u8 = 1;

/// A timer that hasn't started.
pub const NOT_STARTED: u8 = 0;
/// A timer that runs.
pub const RUNNING: u8 = 1;
/// A timer that has run out, or none.
pub const OFF: u8 = 2;

/// The kinds of timers.
#[derive(Clone, Copy)]
pub enum TimerKind {
    NotStarted,
    Running,
    Off,
}

/// What a timer is that begins with this byte.
pub(crate) fn timer_kind(byte: u8) -> Option<TimerKind>
    ensures { result ≡ timer_kind byte }
{
    match byte {
        NOT_STARTED => Some(TimerKind::NotStarted),
        RUNNING => Some(TimerKind::Running),
        OFF => Some(TimerKind::Off),
        _ => None,
    }
}
