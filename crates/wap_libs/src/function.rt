//! The functions, library by library, and their numbers (WAP-194, "Library Summary").

/// A function of the library Lang.
#[derive(Clone, Copy)]
pub enum LangFunction {
    /// `abs`
    Abs,
    /// `min`
    Min,
    /// `max`
    Max,
    /// `parseInt`
    ParseInt,
    /// `parseFloat`
    ParseFloat,
    /// `isInt`
    IsInt,
    /// `isFloat`
    IsFloat,
    /// `maxInt`
    MaxInt,
    /// `minInt`
    MinInt,
    /// `float`
    Float,
    /// `exit`
    Exit,
    /// `abort`
    Abort,
    /// `random`
    Random,
    /// `seed`
    Seed,
    /// `characterSet`
    CharacterSet,
}

/// A function of the library Float.
#[derive(Clone, Copy)]
pub enum FloatFunction {
    /// `int`
    Int,
    /// `floor`
    Floor,
    /// `ceil`
    Ceil,
    /// `pow`
    Pow,
    /// `round`
    Round,
    /// `sqrt`
    Sqrt,
    /// `maxFloat`
    MaxFloat,
    /// `minFloat`
    MinFloat,
}

/// A function of the library String.
#[derive(Clone, Copy)]
pub enum StringFunction {
    /// `length`
    Length,
    /// `isEmpty`
    IsEmpty,
    /// `charAt`
    CharAt,
    /// `subString`
    SubString,
    /// `find`
    Find,
    /// `replace`
    Replace,
    /// `elements`
    Elements,
    /// `elementAt`
    ElementAt,
    /// `removeAt`
    RemoveAt,
    /// `replaceAt`
    ReplaceAt,
    /// `insertAt`
    InsertAt,
    /// `squeeze`
    Squeeze,
    /// `trim`
    Trim,
    /// `compare`
    Compare,
    /// `toString`
    ToString,
    /// `format`
    Format,
}

/// A function of the library URL that needs no browser.
#[derive(Clone, Copy)]
pub enum UrlFunction {
    /// `isValid`
    IsValid,
    /// `getScheme`
    GetScheme,
    /// `getHost`
    GetHost,
    /// `getPort`
    GetPort,
    /// `getPath`
    GetPath,
    /// `getParameters`
    GetParameters,
    /// `getQuery`
    GetQuery,
    /// `getFragment`
    GetFragment,
    /// `resolve`
    Resolve,
    /// `escapeString`
    EscapeString,
    /// `unescapeString`
    UnescapeString,
}

/// A function of one of the libraries, in the order of their numbers.
#[derive(Clone, Copy)]
pub enum Function {
    Lang(LangFunction),
    Float(FloatFunction),
    String(StringFunction),
    Url(UrlFunction),
}

/// The functions of Lang, each at its number.
pub const LANG: [LangFunction; 15] = [
    LangFunction::Abs,
    LangFunction::Min,
    LangFunction::Max,
    LangFunction::ParseInt,
    LangFunction::ParseFloat,
    LangFunction::IsInt,
    LangFunction::IsFloat,
    LangFunction::MaxInt,
    LangFunction::MinInt,
    LangFunction::Float,
    LangFunction::Exit,
    LangFunction::Abort,
    LangFunction::Random,
    LangFunction::Seed,
    LangFunction::CharacterSet,
];

/// The functions of Float, each at its number.
pub const FLOAT: [FloatFunction; 8] = [
    FloatFunction::Int,
    FloatFunction::Floor,
    FloatFunction::Ceil,
    FloatFunction::Pow,
    FloatFunction::Round,
    FloatFunction::Sqrt,
    FloatFunction::MaxFloat,
    FloatFunction::MinFloat,
];

/// The functions of String, each at its number.
pub const STRING: [StringFunction; 16] = [
    StringFunction::Length,
    StringFunction::IsEmpty,
    StringFunction::CharAt,
    StringFunction::SubString,
    StringFunction::Find,
    StringFunction::Replace,
    StringFunction::Elements,
    StringFunction::ElementAt,
    StringFunction::RemoveAt,
    StringFunction::ReplaceAt,
    StringFunction::InsertAt,
    StringFunction::Squeeze,
    StringFunction::Trim,
    StringFunction::Compare,
    StringFunction::ToString,
    StringFunction::Format,
];

/// The functions of URL, each at its number. `None` stands for a function that asks the browser,
/// and the last, `loadString`, is another one.
pub const URL: [Option<UrlFunction>; 13] = [
    Some(UrlFunction::IsValid),
    Some(UrlFunction::GetScheme),
    Some(UrlFunction::GetHost),
    Some(UrlFunction::GetPort),
    Some(UrlFunction::GetPath),
    Some(UrlFunction::GetParameters),
    Some(UrlFunction::GetQuery),
    Some(UrlFunction::GetFragment),
    None,
    None,
    Some(UrlFunction::Resolve),
    Some(UrlFunction::EscapeString),
    Some(UrlFunction::UnescapeString),
];
