//! Postfields as a form (WAP-191, section 9.3).
ghost use Rattle.std.specs.Prelude.{◌≡◌, IfOk};
ghost use Rattle.wap_world.specs.Requests.{field_text, form_text, query_before};

use std::alloc::Global;
use wap_base::{NoMemory, Text};
use wap_url::escape;

/// A postfield, escaped.
fn field_text(alloc: Global, post: &(Text, Text)) -> Result<Text, NoMemory>
    ensures { IfOk result (λ text. text ≡ field_text post.now) }
{
    let mut text = escape(alloc, &post.0)?;
    text.push('=')?;
    text.add(escape(alloc, &post.1)?.as_str())?;
    Ok(text)
}

/// Postfields, escaped and joined by `&`.
pub(crate) fn form_text(alloc: Global, posts: &[(Text, Text)]) -> Result<Text, NoMemory>
    ensures { IfOk result (λ form. form ≡ form_text posts.now) }
{
    let mut form = Text::new(alloc);
    for (place, post) in posts.iter().enumerate() {
        if place > 0 {
            form.push('&')?;
        }
        form.add(field_text(alloc, post)?.as_str())?;
    }
    Ok(form)
}

/// A form after a query; an empty one is none.
pub(crate) fn query_before(
    alloc: Global,
    query: &Option<Text>,
    form: Text,
) -> Result<Text, NoMemory>
    ensures { IfOk result (λ whole. whole ≡ query_before query.now form) }
{
    match query {
        Some(query) if !query.is_empty() => {
            let mut whole = query.copy(alloc)?;
            whole.push('&')?;
            whole.add(form.as_str())?;
            Ok(whole)
        }
        Some(_) | None => Ok(form),
    }
}
