//! What the program answers to edges.

ghost use Rattle.std.specs.Prelude.{◌≡◌, ◌<◌, [], All, IfErr, IfOk, OnOk, length, replicate, string_bytes};
ghost use Rattle.itree.specs.MeetingsLines.{SaysEdge};
ghost use Rattle.itree.specs.Grammar.{lines_of, LinesSay};
ghost use Rattle.itree.specs.Told.{lists_of, AreTold, AreOrderedMeetings};
ghost use Rattle.itree.specs.Answers.{AnswersMeetings};

use crate::fault::Fault;
use crate::lines::{MetLines, command_lines, reply_text};
use i_tree::Refusal;
use plane::edge::Edge;
use plane::meet::meetings;
use std::alloc::{AllocError, Allocator};

/// The text of the replies to the edges that the lines of the text say.
pub fn answer_meetings<A: Allocator + Copy>(
    alloc: A,
    text: &[u8],
    edges: &[Edge],
) -> Result<String<A>, Fault>
    requires { LinesSay SaysEdge (lines_of text.now) edges.now }
    ensures answered { IfOk result (λ output. AnswersMeetings (lines_of text.now) edges.now (string_bytes output)) }
    ensures err { IfErr result (λ fault. fault ≡ Fault.Memory) }
{
    let numbers = command_lines(alloc, text)?;
    let pairs = ordered_meetings(alloc, edges)?;
    let mut replies = unmet(alloc, edges.len())?;
    tell(&mut replies, &pairs, &numbers)?;
    Ok(reply_text(alloc, &replies)?)
}

// The pairs of places whose edges meet, by rising earlier place.
fn ordered_meetings<A: Allocator + Copy>(
    alloc: A,
    edges: &[Edge],
) -> Result<Vec<(usize, usize), A>, Refusal>
    ensures { IfOk result (λ pairs. AreOrderedMeetings edges.now pairs.items) }
{
    let mut pairs = Vec::new(alloc);
    meetings(edges, &mut pairs)?;
    pairs.sort_unstable_by_key(|pair| pair.0);
    Ok(pairs)
}

/// So many replies that list no line.
pub fn unmet<A: Allocator + Copy>(alloc: A, count: usize) -> Result<Vec<MetLines<A>, A>, AllocError>
    ensures { IfOk result (λ replies. lists_of replies.items ≡ replicate count []) }
{
    let mut replies = Vec::new(alloc);
    for _ in 0..count {
        let numbers = Vec::new(alloc);
        replies.push(MetLines { numbers })?;
    }
    Ok(replies)
}

/// Adds to the reply at each pair's later place the number at its earlier place.
pub fn tell<A: Allocator>(
    replies: &mut [MetLines<A>],
    pairs: &[(usize, usize)],
    numbers: &[usize],
) -> Result<(), AllocError>
    requires in_range { All (λ pair. (pair.0 < length numbers.now) × (pair.1 < length replies.old)) pairs.now }
    requires empty { lists_of replies.old ≡ replicate (length replies.old) [] }
    ensures { OnOk result (AreTold numbers.now pairs.now (length replies.old) (lists_of replies.new)) }
{
    // Each pair before is told at its later place, in order.
    for pair in pairs {
        let (earlier, later) = *pair;
        replies[later].numbers.push(numbers[earlier])?;
    }
    Ok(())
}
