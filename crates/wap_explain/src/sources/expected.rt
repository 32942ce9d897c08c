//! What may follow a token, in words.
use crate::sources::words::Word;
use wap_lex::Kind;

/// What may stand where a statement or a function may begin.
fn at_beginning(in_block: bool) -> &'static str {
    if in_block {
        "a statement or }"
    } else {
        "function or extern, or before these use; statements stand in functions alone"
    }
}

/// What may follow a reserved word.
fn after_reserved(word: &str) -> &'static str {
    match word {
        "var" => "the name of a variable",
        "function" => "the name of a function",
        "extern" => "function",
        "use" => "url, access or meta",
        "url" => "a name",
        "access" => "domain or path",
        "domain" | "path" => "a string",
        "meta" => "name, http or user",
        "if" | "while" | "for" => "(",
        "break" | "continue" => ";",
        "return" => "a value or ;",
        "else" => "a statement",
        "true" | "false" | "invalid" => "an operator, or what ends the expression",
        _ => "a value",
    }
}

/// What may follow a mark.
fn after_mark(mark: &str, in_block: bool) -> &'static str {
    match mark {
        ";" | "{" | "}" => at_beginning(in_block),
        ")" => "an operator, what ends the expression, or a statement or block",
        "." | "#" => "the name of a function, and its arguments in parentheses",
        "(" => "a value, or what these parentheses hold",
        "++" | "--" => "a variable, or what ends the expression",
        _ => "a value",
    }
}

/// What may follow some tokens, which end in a block or outside of any.
pub(crate) fn expected_after(words: &[Word<'_>], in_block: bool) -> &'static str {
    match words {
        [] => at_beginning(false),
        [.., word, _, mark] if word.text == "function" && mark.text == "(" => {
            "the name of a parameter or )"
        }
        [.., word] => match word.kind {
            Kind::Name => "an operator, (, or what ends the expression or list",
            Kind::Int | Kind::Float | Kind::Str => "an operator, or what ends the expression",
            Kind::Reserved => after_reserved(word.text),
            Kind::Mark => after_mark(word.text, in_block),
        },
    }
}
