//! `Text::new` and `Text::ready`, while they are refused an allocation.

use crate::growths::marks::{begin, end};
use crate::lower::rows::right;
use nc_decode::{BUNDLE, Mark, START};
use nc_text::{Text, TextFault};
use std::alloc::Global;
use std::test::Fail;

/// The number of bundles of the text, which ends at 01010000.
const BUNDLES: u32 = 524_288;

/// A span of two bundles, each on a page of its own.
const AT: u32 = 0x10FE0;

const LEN: u32 = 64;

/// The result of `Text::new`, without its contract.
fn opened(alloc: Global) -> Result<Text, TextFault> {
    Text::new(alloc, BUNDLES)
}

/// A new text, also if memory is refused once.
fn opened_at_last(alloc: Global) -> Option<Text> {
    match opened(alloc) {
        Ok(text) => Some(text),
        Err(TextFault::OutOfMemory) => opened(alloc).ok(),
        Err(_) => None,
    }
}

/// The result of `ready` for the span.
fn readied(text: &mut Text) -> Result<(), TextFault> {
    if text.limit() < 0x20000 {
        return Err(TextFault::BadSize);
    }
    text.ready(AT, LEN)
}

/// Whether the span is ready.
fn is_ready(text: &Text) -> bool {
    text.limit() >= 0x20000 && text.is_ready(AT, LEN)
}

/// Whether this place has a stop, and is marked if it is a bundle start.
fn is_unused(text: &Text, at: u32) -> bool {
    let due = if at % BUNDLE == 0 {
        Mark::Plain
    } else {
        Mark::Unmarked
    };
    START <= at && at < text.limit() && text.byte(at) == 0xF4 && text.mark(at) == due
}

/// Whether all places around the span are unused.
fn are_unused(text: &Text) -> bool {
    for at in 0x10F00..0x11100u32 {
        if !is_unused(text, at) {
            return false;
        }
    }
    true
}

/// Whether the span is made ready, also if memory is refused once. No byte and no mark changes.
fn is_readied(text: &mut Text) -> bool {
    match readied(text) {
        Ok(()) => is_ready(text) && are_unused(text),
        Err(TextFault::OutOfMemory) => {
            !is_ready(text) && are_unused(text) && readied(text).is_ok() && is_ready(text)
        }
        Err(_) => false,
    }
}

/// Whether a text is opened and its span made ready.
fn is_made(alloc: Global) -> bool {
    match opened_at_last(alloc) {
        Some(text) => {
            let mut text = text;
            is_readied(&mut text) && are_unused(&text)
        }
        None => false,
    }
}

/// `Text::new` and `Text::ready` refuse for lack of memory and change nothing, or succeed.
#[test]
fn each_growth_refused(rt: HostRuntime) -> Result<(), Fail> {
    begin(&rt)?;
    let is_made = is_made(rt.alloc());
    end(&rt)?;
    right(is_made, 1)
}
