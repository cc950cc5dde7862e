//! What is compared in a round.

use crate::random::captures::{Capture, damaged, make_capture};
use crate::random::choices::Random;
use crate::random::expressions::{ENOUGH, RULES, is_steady};
use crate::random::packets::{Packet, Packets, packets_of};
use crate::random::rules::make_text;
use crate::random::run::{Compared, Fuzzer};
use crate::runs::Outcome;
use cap_octet::Link;
use std::alloc::{AllocError, Global};
use std::str;

/// A written file that has no more bytes is only a file header or a section header.
const HEADER: usize = 28;

/// A capture that wasn't damaged is read to its end, and has all that was put into it.
fn made(fuzzer: &mut Fuzzer<'_>, capture: &Capture) -> Compared {
    fuzzer.property = "a whole capture has what was put into it";
    let edited = fuzzer.copy("pcapng", &capture.file.bytes)?;
    let packets = packets_of(fuzzer.alloc, &edited.written)?;
    let is_met = edited.status == Some(0) && packets.list.len() == capture.packets.len();
    fuzzer.compare(is_met, &capture.file.bytes, &edited.written)?;
    for (packet, (data, comment)) in packets.list.iter().zip(capture.packets.iter()) {
        fuzzer.same(data, packet.data)?;
        fuzzer.same(comment, packet.comment)?;
    }
    Ok(())
}

/// An edit of a capture that is cut short writes a prefix of what the edit of the whole one writes.
fn cut(fuzzer: &mut Fuzzer<'_>, bytes: &[u8], whole: &Outcome, format: &str) -> Compared {
    fuzzer.property = "a cut capture gives a prefix";
    let size = fuzzer.random.place(bytes.len());
    let short = fuzzer.copy(format, bytes.get(..size).unwrap_or_default())?;
    let is_met = short.written.len() <= HEADER || whole.written.starts_with(&short.written);
    fuzzer.compare(is_met, &whole.written, &short.written)
}

/// A merge of one file does what an edit does that changes nothing.
fn merged(fuzzer: &mut Fuzzer<'_>, bytes: &[u8], whole: &Outcome, format: &str) -> Compared {
    fuzzer.property = "a merge of one file is its edit";
    let mode = if fuzzer.random.one_in(2) { "-a" } else { "--" };
    let words = ["merge", "-F", format, "-w", "out", mode, "in"];
    let merged = fuzzer.run(&words, bytes, &[])?;
    fuzzer.same_outcome(whole, &merged)
}

/// What was written is read back as it is.
fn read_back(fuzzer: &mut Fuzzer<'_>, whole: &Outcome, format: &str) -> Compared {
    if whole.written.is_empty() {
        return Ok(());
    }
    fuzzer.property = "what was written reads back";
    let second = fuzzer.copy(format, &whole.written)?;
    fuzzer.same(&whole.written, &second.written)?;
    fuzzer.compare(second.status == Some(0), b"", &second.messages)
}

/// Edits of the first packets and of the others part the packets.
fn numbered(fuzzer: &mut Fuzzer<'_>, bytes: &[u8], whole: &Outcome) -> Compared {
    fuzzer.property = "ranges part the packets";
    let number = fuzzer.random.below(12).saturating_add(1);
    let (next, last) = (number.saturating_add(1), i64::MAX);
    let front = format!(in fuzzer.alloc; "1-{number}")?;
    let back = format!(in fuzzer.alloc; "{next}-{last}")?;
    let first = fuzzer.run(&["edit", "-r", "in", "out", &front], bytes, &[])?;
    let second = fuzzer.run(&["edit", "-r", "in", "out", &back], bytes, &[])?;
    let deleted = fuzzer.run(&["edit", "in", "out", &front], bytes, &[])?;
    fuzzer.same_outcome(&second, &deleted)?;
    fuzzer.same(&whole.messages, &first.messages)?;
    fuzzer.same(&whole.messages, &second.messages)?;
    let all = packets_of(fuzzer.alloc, &whole.written)?;
    let mut parts = packets_of(fuzzer.alloc, &first.written)?;
    let back = packets_of(fuzzer.alloc, &second.written)?;
    parts.list.extend_from_slice(&back.list)?;
    fuzzer.compare(all.list == parts.list, &first.written, &second.written)
}

/// A report of what was written counts what was written, and as many packets as lines are printed.
fn counted(fuzzer: &mut Fuzzer<'_>, bytes: &[u8], whole: &Outcome) -> Compared {
    fuzzer.property = "reports and lines count alike";
    let packets = packets_of(fuzzer.alloc, &whole.written)?;
    let lines = fuzzer.run(&["print", "in"], bytes, &[])?;
    let printed = str::from_utf8(&lines.written).unwrap_or_default();
    let is_met = packets.is_whole && printed.lines().count() == packets.list.len();
    fuzzer.compare(is_met, &whole.written, &lines.written)?;
    fuzzer.same(&whole.messages, &lines.messages)?;
    if whole.written.is_empty() {
        return Ok(());
    }
    let report = fuzzer.run(&["infos", "in"], &whole.written, &[])?;
    let report = report.written.as_slice();
    let (front, back) = report_of(fuzzer.alloc, whole.written.len(), &packets)?;
    let (front, back) = (front.as_bytes(), back.as_bytes());
    fuzzer.compare(report.starts_with(front), front, report)?;
    fuzzer.compare(report.ends_with(back), back, report)
}

/// What a report of a file of `size` bytes has in front of its dates, and after them.
fn report_of(
    alloc: Global,
    size: usize,
    packets: &Packets<'_>,
) -> Result<(String, String), AllocError> {
    let (count, mut original, mut captured) = (packets.list.len(), 0u64, 0u64);
    let (mut least, mut greatest, mut last) = (u64::MAX, 0u64, 0u64);
    let mut order = "yes";
    for packet in packets.list.iter() {
        original = original.saturating_add(u64::from(packet.original));
        captured = captured.saturating_add(packet.data.len() as u64);
        order = if packet.time < last { "no" } else { order };
        (least, greatest) = (least.min(packet.time), greatest.max(packet.time));
        last = packet.time;
    }
    let duration = greatest.saturating_sub(least);
    let (seconds, nanos) = (duration / 1_000_000_000, duration % 1_000_000_000);
    let front = format!(in alloc;
        "File: in\nType: pcapng\nPackets: {count}\nFile size: {size}\nData size: {original}\n\
         Captured size: {captured}\nEarliest: "
    )?;
    let back = format!(in alloc; "\nDuration: {seconds}.{nanos:09}\nStrict order: {order}\n\n")?;
    Ok((front, back))
}

/// Whether packets are parted into those that match, those that match the contrary, and some that
/// are rejected, which neither has; those that aren't rejected match either of the two. If an
/// end is asked for they are parted up to the first one whose link type isn't filtered.
fn are_parted(
    all: &[Packet<'_>],
    (yes, no, either): (&[Packet<'_>], &[Packet<'_>], &[Packet<'_>]),
    (is_steady, has_end): (bool, bool),
) -> bool {
    let (mut yes, mut no) = (yes.iter().peekable(), no.iter().peekable());
    let mut either = either.iter().peekable();
    let mut is_ended = false;
    for packet in all {
        is_ended = Link::of_link_type(packet.link).is_none();
        if is_ended {
            break;
        }
        let is_read = yes.next_if_eq(&packet).is_some() || no.next_if_eq(&packet).is_some();
        let must_be_read = is_steady && ENOUGH <= packet.data.len();
        if is_read != either.next_if_eq(&packet).is_some() || must_be_read && !is_read {
            return false;
        }
    }
    let is_passed = yes.next().is_none() && no.next().is_none() && either.next().is_none();
    is_passed && is_ended == has_end
}

/// Whether the run ended at a packet whose link type isn't filtered.
fn is_unfiltered(outcome: &Outcome) -> bool {
    outcome.messages.ends_with(b": link type not filtered\n")
}

/// An expression and its contrary part the packets, up to one that isn't filtered.
fn filtered(
    fuzzer: &mut Fuzzer<'_>,
    bytes: &[u8],
    text: &str,
    (whole, yes): (&Outcome, &Outcome),
) -> Compared {
    fuzzer.property = "an expression and its contrary part the packets";
    let contrary = format!(in fuzzer.alloc; "not ({text})")?;
    let no = fuzzer.print(&contrary, bytes)?;
    let either = format!(in fuzzer.alloc; "({text}) or not ({text})")?;
    let either = fuzzer.print(&either, bytes)?;
    fuzzer.same(&yes.messages, &no.messages)?;
    fuzzer.same(&yes.messages, &either.messages)?;
    if yes.status == Some(2) {
        return Ok(());
    }
    let has_end = is_unfiltered(yes);
    if !has_end {
        fuzzer.same(&whole.messages, &yes.messages)?;
    }
    let all = packets_of(fuzzer.alloc, &whole.written)?;
    let yes = packets_of(fuzzer.alloc, &yes.written)?;
    let no = packets_of(fuzzer.alloc, &no.written)?;
    let either = packets_of(fuzzer.alloc, &either.written)?;
    let parts = (
        yes.list.as_slice(),
        no.list.as_slice(),
        either.list.as_slice(),
    );
    let is_met = are_parted(&all.list, parts, (is_steady(text), has_end));
    fuzzer.compare(is_met, text.as_bytes(), bytes)
}

/// The packets of a link that a file has.
fn on_link<'b>(alloc: Global, link: Link, bytes: &'b [u8]) -> Result<Vec<Packet<'b>>, AllocError> {
    let mut packets = Vec::new(alloc);
    for packet in packets_of(alloc, bytes)?.list.iter() {
        if packet.link == link.link_type() {
            packets.push(*packet)?;
        }
    }
    Ok(packets)
}

/// A listing keeps, of the link that it is compiled for, the packets that its expression keeps; a
/// text that a print refuses is refused by a compilation too, and the other way round.
fn compiled(fuzzer: &mut Fuzzer<'_>, bytes: &[u8], text: &str, by_words: &Outcome) -> Compared {
    fuzzer.property = "a listing keeps what its expression keeps";
    for link in Link::ALL {
        let listing = fuzzer.compile(text, link.name())?;
        if by_words.status == Some(2) || listing.status == Some(2) {
            fuzzer.same_outcome(by_words, &listing)?;
        } else {
            listed(fuzzer, (bytes, text), by_words, (link, &listing.written))?;
        }
    }
    Ok(())
}

/// Whether these are the same packets.
fn are_same(left: &[Packet<'_>], right: &[Packet<'_>]) -> bool {
    left == right
}

/// Compares what a listing keeps of its link with what its expression keeps: more if the
/// expression's run ended early. A damaged listing is run too.
fn listed(
    fuzzer: &mut Fuzzer<'_>,
    (bytes, text): (&[u8], &str),
    by_words: &Outcome,
    (link, listing): (Link, &[u8]),
) -> Compared {
    let by_code = fuzzer.print_by(listing, bytes)?;
    let words = on_link(fuzzer.alloc, link, &by_words.written)?;
    let mut codes = on_link(fuzzer.alloc, link, &by_code.written)?;
    if is_unfiltered(by_words) {
        codes.truncate(words.len());
    } else {
        fuzzer.same(&by_words.messages, &by_code.messages)?;
    }
    fuzzer.compare(are_same(&words, &codes), text.as_bytes(), bytes)?;
    let wrong = damaged(fuzzer.alloc, &mut fuzzer.random, listing)?;
    fuzzer.print_by(&wrong, bytes)?;
    Ok(())
}

/// Compares what commands do with these bytes.
fn compare_runs(fuzzer: &mut Fuzzer<'_>, bytes: &[u8], expression: &str) -> Compared {
    for format in ["pcap", "nsecpcap", "pcapng"] {
        let whole = fuzzer.copy(format, bytes)?;
        cut(fuzzer, bytes, &whole, format)?;
        merged(fuzzer, bytes, &whole, format)?;
        read_back(fuzzer, &whole, format)?;
    }
    let whole = fuzzer.copy("pcapng", bytes)?;
    numbered(fuzzer, bytes, &whole)?;
    counted(fuzzer, bytes, &whole)?;
    let matching = fuzzer.print(expression, bytes)?;
    filtered(fuzzer, bytes, expression, (&whole, &matching))?;
    compiled(fuzzer, bytes, expression, &matching)?;
    let words = make_text(fuzzer.alloc, &mut fuzzer.random, RULES, "text")?;
    let printed = fuzzer.print(&words, bytes)?;
    compiled(fuzzer, bytes, &words, &printed)
}

/// Makes the captures and the expression of a round, and compares what commands do with them.
pub fn compare_round(fuzzer: &mut Fuzzer<'_>, seed: u64) -> Compared {
    fuzzer.seed = seed;
    fuzzer.random = Random::new(seed);
    let whole = make_capture(fuzzer.alloc, &mut fuzzer.random)?;
    let expression = make_text(fuzzer.alloc, &mut fuzzer.random, RULES, "expression")?;
    made(fuzzer, &whole)?;
    compare_runs(fuzzer, &whole.file.bytes, &expression)?;
    let wrong = damaged(fuzzer.alloc, &mut fuzzer.random, &whole.file.bytes)?;
    compare_runs(fuzzer, &wrong, &expression)
}
