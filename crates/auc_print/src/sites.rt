//! The words of a line for sites.

ghost use Rattle.std.specs.Prelude.{◌≡◌, ◌∷◌, [], codes};
ghost use Rattle.auc_print.specs.Inner.{group_texts};
ghost use Rattle.auc_print.specs.Numeral.{numeral};
ghost use Rattle.auc_print.specs.SitesText.{delivery_words, sites_words};

use crate::word::Word::{Nothing, Number, Text};
use crate::word::{Word, decimal};
use auc_record::{SitesNote, SitesOutcome};

/// What happened in an event.
pub fn words_of_note(note: SitesNote) -> [Word<'static>; 6]
    ensures { group_texts result ≡ sites_words note }
{
    match note {
        SitesNote::Asked { site, packet } => filled(sending(b"ask", site, packet)),
        SitesNote::Delivered { packet, outcome } => words_of_delivery(packet, outcome),
        SitesNote::Number { site, n } => filled(counted(b"draw", site, b"number", n)),
        SitesNote::Empty { site } => filled(worded(b"draw", site, b"empty")),
        SitesNote::Restarted { site } => filled(valued(b"restart", site)),
        SitesNote::MasterRestarted => filled(alone(b"master")),
    }
}

/// The number of a packet that was delivered, and what became of it.
fn words_of_delivery(packet: u32, outcome: SitesOutcome) -> [Word<'static>; 6]
    ensures { group_texts result ≡ codes "deliver" ∷ numeral packet ∷ delivery_words outcome }
{
    let [first, second, third, fourth] = words_of_outcome(outcome);
    let packet = decimal(packet);
    [Text(b"deliver"), packet, first, second, third, fourth]
}

/// What became of a packet that was delivered.
fn words_of_outcome(outcome: SitesOutcome) -> [Word<'static>; 4]
    ensures { group_texts result ≡ delivery_words outcome }
{
    match outcome {
        SitesOutcome::Granted { count, sent } => sending(b"granted", count, sent),
        SitesOutcome::Again { count, sent } => sending(b"again", count, sent),
        SitesOutcome::Old => alone(b"old"),
        SitesOutcome::Refused => alone(b"refused"),
        SitesOutcome::Taken { count } => valued(b"taken", count),
        SitesOutcome::NotMine => alone(b"notmine"),
        SitesOutcome::NoSuchPacket => alone(b"nosuchpacket"),
    }
}

/// One word.
fn alone(text: &'static [u8]) -> [Word<'static>; 4]
    ensures { group_texts result ≡ text.now ∷ [] }
{
    [Text(text), Nothing, Nothing, Nothing]
}

/// A word and a number.
fn valued(text: &'static [u8], count: u32) -> [Word<'static>; 4]
    ensures { group_texts result ≡ text.now ∷ numeral count ∷ [] }
{
    [Text(text), decimal(count), Nothing, Nothing]
}

/// A word, a number and another word.
fn worded(first: &'static [u8], count: u32, second: &'static [u8]) -> [Word<'static>; 4]
    ensures { group_texts result ≡ first.now ∷ numeral count ∷ second.now ∷ [] }
{
    [Text(first), decimal(count), Text(second), Nothing]
}

/// Two words, each with a number.
fn counted(first: &'static [u8], count: u32, second: &'static [u8], last: u64) -> [Word<'static>; 4]
    ensures { group_texts result ≡ first.now ∷ numeral count ∷ second.now ∷ numeral last ∷ [] }
{
    [Text(first), decimal(count), Text(second), Number(last)]
}

/// A word, a number and the packet that is sent.
fn sending(text: &'static [u8], count: u32, packet: u32) -> [Word<'static>; 4]
    ensures { group_texts result ≡ text.now ∷ numeral count ∷ codes "sent" ∷ numeral packet ∷ [] }
{
    counted(text, count, b"sent", u64::from(packet))
}

/// The same words.
fn filled(words: [Word<'static>; 4]) -> [Word<'static>; 6]
    ensures { group_texts result ≡ group_texts words.entry }
{
    let [first, second, third, fourth] = words;
    [first, second, third, fourth, Nothing, Nothing]
}
