//! What the tables promise. The functions here do nothing, and carry the laws alone.
ghost use Rattle.std.specs.Prelude.{◌≡◌};
ghost use Rattle.wap_tokens.specs.markup.Tables.{tag_rows, name_rows, start_rows, value_rows};
ghost use Rattle.wap_tokens.specs.Agreement.{TagsAgree, AttributesAgree, ValuesAgree};
ghost use Rattle.wap_tokens.specs.Listed.{elements, attributes, starts, values};

/// Names and codes tell each other.
pub fn tables_agree()
    ensures tags { TagsAgree }
    ensures attributes { AttributesAgree }
    ensures values { ValuesAgree }
{}

/// The tables of the code are those of the definitions.
pub fn tables_are_listed()
    ensures elements { tag_rows ≡ elements }
    ensures attributes { name_rows ≡ attributes }
    ensures starts { start_rows ≡ starts }
    ensures values { value_rows ≡ values }
{}
