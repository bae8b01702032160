// The lines of a summary.
ghost use Rattle.std.specs.Prelude.{◌≡◌, ◌++◌, string_bytes, IfOk, OnOk};
ghost use Rattle.zb_tally.specs.Summary.{summary, summary_line};

use crate::tally::Tally;
use std::alloc::{AllocError, Global};

/// The seven lines that tell what came of a workload with so many requests.
#[tactic(auto, unfolding(crate::specs::Summary::summary))]
pub fn summary(alloc: Global, requests: u32, tally: Tally) -> Result<String, AllocError>
    ensures { IfOk result (λ text. string_bytes text ≡ summary requests tally) }
{
    let mut text = String::new(alloc);
    put_line(&mut text, "requests", u64::from(requests))?;
    put_line(&mut text, "batches", tally.batches)?;
    put_line(&mut text, "accepted", tally.accepted)?;
    put_line(&mut text, "rejected", tally.rejected)?;
    put_line(&mut text, "events", tally.events)?;
    put_line(&mut text, "cells", tally.cells)?;
    put_line(&mut text, "messages", tally.messages)?;
    Ok(text)
}

// Adds a line with a word and a number.
#[tactic(auto, unfolding(crate::specs::Summary::summary_line))]
fn put_line(text: &mut String, word: &str, number: u64) -> Result<(), AllocError>
    ensures { OnOk result (string_bytes text.new ≡ string_bytes text.old ++ summary_line word.now number) }
{
    text.push_str(word)?;
    text.push_str(" ")?;
    text.write(number)?;
    text.push_str("\n")
}
