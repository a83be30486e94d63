//! A line, read from its text.
ghost use Rattle.std.specs.Prelude.{◌≡◌, IfOk, IfSome, IfNone};
ghost use Rattle.plain_words.specs.Words.{ReadsAs};
ghost use Rattle.page_script.specs.declared.line.Line.{Line};
ghost use Rattle.page_script.specs.Lines.{IsScriptLine};
ghost use Rattle.page_script.specs.LineParts.{IsLimits, IsStep};

use crate::line::MOST_SCRIPT_LINE;
use crate::line_parts::read_number_then;
use crate::page::read_page;
use crate::{Line, Name};
use asp_base::{LAST_MOMENT, NoMemory};
use plain_words::{read_plain_number, strip};
use std::alloc::Global;
use visit_core::{Limits, MOST_EXECUTION_SECS, MOST_POLL_MS, MOST_POLLS, limits_fit};

fn read_limits(text: &[u8]) -> Option<Limits>
    ensures { ReadsAs (IsLimits text.now) result }
{
    let (execution_secs, rest) = read_number_then(text, MOST_EXECUTION_SECS)?;
    let (poll_ms, rest) = read_number_then(rest, MOST_POLL_MS)?;
    let polls = read_plain_number(rest, MOST_POLLS)?;
    let limits = Limits {
        execution_secs,
        poll_ms,
        polls,
    };
    if limits_fit(&limits) {
        Some(limits)
    } else {
        None
    }
}

fn read_step(text: &[u8]) -> Option<(u64, Name)>
    ensures { ReadsAs (IsStep text.now) result }
{
    let (moment, name) = read_number_then(text, LAST_MOMENT)?;
    let name = Name::read(name)?;
    Some((moment, name))
}

/// The line that the text spells, without its line feed: `None` exactly where it spells none. Only
/// the key and the content of a `page` line are copied. The only error is want of memory.
pub fn read_line(alloc: Global, text: &[u8]) -> Result<Option<Line>, NoMemory>
    ensures line { IfOk result (λ found. IfSome found (IsScriptLine text.now)) }
    ensures none { IfOk result
        (λ found. IfNone found ((line : Line) → IsScriptLine text.now line → ⊥)) }
{
    if text.len() > MOST_SCRIPT_LINE {
        return Ok(None);
    }
    if let Some(words) = strip(text, b"limits ") {
        return Ok(read_limits(words).map(Line::Limits));
    }
    if let Some(words) = strip(text, b"page ") {
        return Ok(read_page(alloc, words)?.map(Line::Page));
    }
    if let Some(words) = strip(text, b"step ") {
        return Ok(read_step(words).map(|(moment, name)| Line::Step { moment, name }));
    }
    Ok(None)
}
