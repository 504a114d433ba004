//! The lines of keys of EPS, of 5G authentications, and of what happens at sites and in sessions of EAP-SIM.

ghost use Rattle.std.specs.Prelude.{◌≡◌, ◌++◌, length, OnOk};
ghost use Rattle.auc_record.specs.Record.{IsBelow, further_subscriber};
ghost use Rattle.auc_print.specs.Inner.{Prints, lines_text};
ghost use Rattle.auc_print.specs.OneText.{FurtherFits};
ghost use Rattle.auc_print.specs.Text.{fiveg_word, further_lines, further_words, identities_of, seaf_words, spaced};

use crate::sim::{print_sim_lines, words_of_sim};
use crate::sites::words_of_note;
use crate::word::{Word, hex_word};
use crate::writer::{print_line, print_named};
use auc_memory::{NoMemory, Octets};
use auc_record::{FivegOutcome, Further};
use auc_subs::Subscribers;

/// Appends the line of what follows from a vector, or of what happened at sites or in a session of EAP-SIM.
pub fn print_further(said: &Further, subs: &Subscribers, out: &mut Octets) -> Result<(), NoMemory>
    requires { IsBelow (length subs.now) (further_subscriber said.now) }

    ensures text { Prints result out.old out.new
        (spaced (further_words (identities_of subs.now) said.now)) }
    ensures fits { OnOk result (FurtherFits said.now) }
{
    match said {
        Further::Kasme(key) => print_line(b"kasme", &[hex_word(key)], out),
        Further::HxresStar(half) => print_line(b"hxresstar", &[hex_word(half)], out),
        Further::Fiveg { sub, outcome } => {
            let word = Word::Text(word_of_fiveg(outcome));
            print_named(b"fiveg", *sub, &[word], subs, out)
        }
        Further::Sites { sub, note } => {
            print_named(b"sites", *sub, &words_of_note(*note), subs, out)
        }
        Further::Sim { sub, note } => print_named(b"sim", *sub, &words_of_sim(note), subs, out),
    }
}

/// The word that says what became of a 5G authentication.
fn word_of_fiveg(outcome: &FivegOutcome) -> &'static [u8]
    ensures { result.now ≡ fiveg_word outcome.now }
{
    match outcome {
        FivegOutcome::NoSeparation => b"noseparation",
        FivegOutcome::ServingRefused => b"servingrefused",
        FivegOutcome::HomeRefused => b"homerefused",
        FivegOutcome::Confirmed { .. } => b"confirmed",
    }
}

/// Appends the lines that a full print adds after it: K_SEAF of the home network and of the device, if a 5G authentication is
/// confirmed; or the packet that was sent in a session of EAP-SIM, and the keys of Success.
pub fn print_further_lines(said: &Further, out: &mut Octets) -> Result<(), NoMemory>
    ensures { Prints result out.old out.new (lines_text (further_lines said.now)) }
{
    match said {
        Further::Fiveg {
            outcome: FivegOutcome::Confirmed { home, device },
            ..
        } => { print_both(home, device, out) }
        Further::Sim { note, .. } => print_sim_lines(note, out),
        Further::Fiveg { .. } | Further::Kasme(_) | Further::HxresStar(_) | Further::Sites { .. } =>
            Ok(()),
    }
}

/// Appends the line of K_SEAF of both ends.
fn print_both(home: &[u8; 32], device: &[u8; 32], out: &mut Octets) -> Result<(), NoMemory>
    ensures { Prints result out.old out.new (spaced (seaf_words home.now device.now)) }
{
    print_line(b"seaf", &[Word::Hex(home), Word::Hex(device)], out)
}
