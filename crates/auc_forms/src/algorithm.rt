//! The forms `vector K OPC RAND SQN AMF`, with or without the word `autn` behind it, and `auts K OPC RAND SQN`.

ghost use Rattle.std.specs.Prelude.{◌≡◌, ◌≤◌, ◌++◌, length, OnOk, IfOk};
ghost use Rattle.auc_forms.specs.Algorithm.{algorithm_named, algorithm_text, autn_at, autn_line, auts_line, auts_values_behind, auts_values_in, begins_form, function_lines, value_line, values_behind, values_in};

use auc_aes::xor;
use auc_memory::{NoMemory, Octets};
use auc_milenage::{Milenage, Secret, f1_star, f5_star, make_auts};
use auc_text::read_octets;
use std::alloc::Global;

/// The values of `vector`, byte strings with their most significant byte first.
#[derive(Clone, Copy)]
pub struct AlgorithmWords {
    pub k: [u8; 16],
    pub opc: [u8; 16],
    pub rand: [u8; 16],
    pub sqn: [u8; 6],
    pub amf: [u8; 2],
}

/// The values of `auts`, byte strings with their most significant byte first.
#[derive(Clone, Copy)]
pub struct AutsWords {
    pub k: [u8; 16],
    pub opc: [u8; 16],
    pub rand: [u8; 16],
    /// The greatest SQN that the USIM has accepted.
    pub sqn_ms: [u8; 6],
}

/// What the words ask for, and at which values.
#[derive(Clone, Copy)]
pub enum AlgorithmForm {
    /// `vector K OPC RAND SQN AMF`: the seven functions of Milenage.
    Functions(AlgorithmWords),
    /// `vector K OPC RAND SQN AMF autn`: the same, and AUTN.
    WithAutn(AlgorithmWords),
    /// `auts K OPC RAND SQN`: AUTS.
    Auts(AutsWords),
}

/// The form that the words have, with values of hexadecimal digits of either case, or `None` if the words have none of
/// these forms.
pub fn algorithm_words(words: &[Octets]) -> Option<AlgorithmForm>
    ensures { result ≡ algorithm_named words.now }
{
    if begins_form(words, 6, b"vector") {
        return Some(AlgorithmForm::Functions(values_behind(words)?));
    }
    if begins_form(words, 7, b"vector") && words[6].as_slice() == b"autn".as_slice() {
        return Some(AlgorithmForm::WithAutn(values_behind(words)?));
    }
    if begins_form(words, 5, b"auts") {
        return Some(AlgorithmForm::Auts(auts_values_behind(words)?));
    }
    None
}

/// Whether there are `count` words, of which the first is `first`.
fn begins_form(words: &[Octets], count: usize, first: &[u8]) -> bool
    requires { 1 ≤ count }
    ensures { result ≡ begins_form count first.now words.now }
{
    words.len() == count && words[0].as_slice() == first
}

/// The values of `vector` that the words behind the first spell.
fn values_behind(words: &[Octets]) -> Option<AlgorithmWords>
    requires { 6 ≤ length words.now }
    ensures { result ≡ values_behind words.now }
{
    read_values(
        words[1].as_slice(),
        words[2].as_slice(),
        words[3].as_slice(),
        words[4].as_slice(),
        words[5].as_slice(),
    )
}

/// The values that five texts spell.
fn read_values(k: &[u8], opc: &[u8], rand: &[u8], sqn: &[u8], amf: &[u8]) -> Option<AlgorithmWords>
    ensures { result ≡ values_in k.now opc.now rand.now sqn.now amf.now }
{
    Some(AlgorithmWords {
        k: read_octets(k)?,
        opc: read_octets(opc)?,
        rand: read_octets(rand)?,
        sqn: read_octets(sqn)?,
        amf: read_octets(amf)?,
    })
}

/// The values of `auts` that the words behind the first spell.
fn auts_values_behind(words: &[Octets]) -> Option<AutsWords>
    requires { 5 ≤ length words.now }
    ensures { result ≡ auts_values_behind words.now }
{
    read_auts_values(
        words[1].as_slice(),
        words[2].as_slice(),
        words[3].as_slice(),
        words[4].as_slice(),
    )
}

/// The values of an AUTS that four texts spell.
fn read_auts_values(k: &[u8], opc: &[u8], rand: &[u8], sqn_ms: &[u8]) -> Option<AutsWords>
    ensures { result ≡ auts_values_in k.now opc.now rand.now sqn_ms.now }
{
    Some(AutsWords {
        k: read_octets(k)?,
        opc: read_octets(opc)?,
        rand: read_octets(rand)?,
        sqn_ms: read_octets(sqn_ms)?,
    })
}

/// The lines of a form: the functions f1 to f5* and AUTN, or AUTS.
pub fn algorithm_lines(alloc: Global, form: &AlgorithmForm) -> Result<Octets, NoMemory>
    ensures { IfOk result (λ text. text ≡ algorithm_text form.now) }
{
    match form {
        AlgorithmForm::Functions(given) => function_lines(alloc, given),
        AlgorithmForm::WithAutn(given) => lines_with_autn(alloc, given),
        AlgorithmForm::Auts(given) => auts_line(alloc, given),
    }
}

/// The seven lines of the functions f1 to f5*.
#[tactic(auto, unfolding(crate::specs::Algorithm::function_lines))]
fn function_lines(alloc: Global, given: &AlgorithmWords) -> Result<Octets, NoMemory>
    ensures { IfOk result (λ text. text ≡ function_lines given.now) }
{
    let secret = Secret {
        k: given.k,
        opc: given.opc,
    };
    let (mac, four) = Milenage::new(&secret).f12345(given.rand, given.sqn, given.amf);
    let mut text = Octets::new(alloc);
    append_value(alloc, &mut text, b"f1", &mac)?;
    append_value(
        alloc,
        &mut text,
        b"f1*",
        &f1_star(&secret, given.rand, given.sqn, given.amf),
    )?;
    append_value(alloc, &mut text, b"f2", &four.res)?;
    append_value(alloc, &mut text, b"f3", &four.ck)?;
    append_value(alloc, &mut text, b"f4", &four.ik)?;
    append_value(alloc, &mut text, b"f5", &four.ak)?;
    append_value(alloc, &mut text, b"f5*", &f5_star(&secret, given.rand))?;
    Ok(text)
}

/// The seven lines, and that of AUTN.
fn lines_with_autn(alloc: Global, given: &AlgorithmWords) -> Result<Octets, NoMemory>
    ensures { IfOk result (λ text. text ≡ function_lines given.now ++ autn_line given.now) }
{
    let autn = autn(alloc, given)?;
    let mut text = function_lines(alloc, given)?;
    append_value(alloc, &mut text, b"autn", autn.as_slice())?;
    Ok(text)
}

/// AUTN, 16 bytes: SQN masked by AK, AMF, and MAC-A (TS 33.102 §6.3.2).
fn autn(alloc: Global, given: &AlgorithmWords) -> Result<Octets, NoMemory>
    ensures { IfOk result (λ autn. autn ≡ autn_at given.now) }
{
    let secret = Secret {
        k: given.k,
        opc: given.opc,
    };
    let (mac, four) = Milenage::new(&secret).f12345(given.rand, given.sqn, given.amf);
    let mut autn = Octets::copied_from(alloc, &xor(given.sqn, four.ak))?;
    autn.append(&given.amf)?;
    autn.append(&mac)?;
    Ok(autn)
}

/// The line of AUTS, the answer of a USIM to an SQN that isn't fresh (TS 33.102 §6.3.3).
fn auts_line(alloc: Global, given: &AutsWords) -> Result<Octets, NoMemory>
    ensures { IfOk result (λ text. text ≡ auts_line given.now) }
{
    let secret = Secret {
        k: given.k,
        opc: given.opc,
    };
    let auts = make_auts(&secret, given.rand, given.sqn_ms);
    let mut text = Octets::new(alloc);
    append_value(alloc, &mut text, b"auts", &auts)?;
    Ok(text)
}

/// Appends a value's line.
fn append_value(alloc: Global, text: &mut Octets, name: &[u8], value: &[u8]) -> Result<(), NoMemory>
    ensures { OnOk result (text.new ≡ text.old ++ value_line name.now value.now) }
{
    let digits = hex::encode(alloc, value)?;
    text.append(name)?;
    text.append(b" ")?;
    text.append(digits.as_bytes())?;
    text.append(b"\n")
}
