//! Texts that are made at random by rules.

use crate::random::choices::Random;
use std::alloc::{AllocError, Global};

/// One of the texts that a name may be replaced by.
fn text_for<'r>(random: &mut Random, rules: &'r str, name: &str) -> &'r str {
    for rule in rules.lines() {
        let (known, texts) = rule.split_once(": ").unwrap_or((rule, ""));
        if known == name {
            let place = random.place(texts.split("; ").count());
            return texts.split("; ").nth(place).unwrap_or("");
        }
    }
    ""
}

/// A text for the name `start`, in which each name in braces is replaced, until none is left.
///
/// A rule is a line: a name, `: `, and the texts that it may be replaced by with `; ` between them.
pub fn make_text(
    alloc: Global,
    random: &mut Random,
    rules: &str,
    start: &str,
) -> Result<String, AllocError> {
    let mut text = String::from_str(alloc, text_for(random, rules, start))?;
    // Rules need far fewer steps.
    for _ in 0..1_000 {
        let Some((front, rest)) = text.split_once("{") else {
            break;
        };
        let (name, back) = rest.split_once("}").unwrap_or((rest, ""));
        let middle = text_for(random, rules, name);
        text = format!(in alloc; "{front}{middle}{back}")?;
    }
    Ok(text)
}
