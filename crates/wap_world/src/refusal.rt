//! Why something isn't done.

/// What the line of a refusal tells.
#[derive(Clone, Copy, Debug, PartialEq, Eq)]
pub enum Refusal {
    /// No turn is left for a navigation.
    Budget,
    /// A text is no URL, or one without a scheme or a host.
    Url,
    /// A URL's scheme is not http.
    Scheme,
    /// There is no page of the name.
    Missing,
    /// The page is none that can be shown.
    Refused,
    /// The page may not be entered from here.
    Denied,
    /// No card was entered before this one.
    First,
    /// The key fits nothing.
    Ignored,
    /// The field doesn't take the text.
    Mask,
    /// As many variables are kept as may be.
    Full,
    /// The text is too long for a variable.
    Long,
}
