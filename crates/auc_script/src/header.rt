//! The lines before the first round, except the subscribers.

ghost use Rattle.std.specs.Prelude.{◌≡◌, OnOk};
ghost use Rattle.auc_text.specs.Text.{words_of};
ghost use Rattle.auc_script.specs.InnerRefusal.{Becomes};
ghost use Rattle.auc_script.specs.InnerSoFar.{IsHeader};
ghost use Rattle.auc_script.specs.Scenario.{header_with, key_line, print_line, realm_line, workers_line};

use crate::limits::{MAX_REALM, MAX_WORKERS};
use auc_memory::Octets;
use auc_reading::{HeaderWord, LineRefusal, ScriptWhy, one_field, read_full, read_number, require};
use auc_text::read_octets;
use std::alloc::Global;

/// What the words of the header said so far, each once.
#[derive(Drop)]
pub struct Header {
    /// The key of the random bytes.
    pub key: Option<[u8; 32]>,
    /// How many threads serve a round.
    pub workers: Option<u32>,
    /// Whether vectors are printed in full.
    pub full: Option<bool>,
    /// The realm of the identities.
    pub realm: Option<Octets>,
}

impl Header {
    /// Takes the fields of a word.
    pub fn put(&mut self, alloc: Global, word: HeaderWord, fields: &[u8]) -> Result<(), LineRefusal>
        requires { IsHeader self.old }
        ensures becomes { Becomes (header_with self.old word (words_of fields.now)) result self.new }
        ensures kept { OnOk result (IsHeader self.new) }
    {
        match word {
            HeaderWord::Randkey => self.put_key(fields),
            HeaderWord::Workers => self.put_workers(fields),
            HeaderWord::Print => self.put_print(fields),
            HeaderWord::Realm => self.put_realm(alloc, fields),
        }
    }

    /// Takes the field of `randkey`.
    fn put_key(&mut self, fields: &[u8]) -> Result<(), LineRefusal>
        requires { IsHeader self.old }
        ensures becomes { Becomes (key_line self.old (words_of fields.now)) result self.new }
        ensures kept { OnOk result (IsHeader self.new) }
    {
        let key = read_octets::<32>(one_field(fields)?).ok_or(ScriptWhy::Hex)?;
        require(self.key.is_none(), ScriptWhy::Twice)?;
        self.key = Some(key);
        Ok(())
    }

    /// Takes the field of `workers`.
    fn put_workers(&mut self, fields: &[u8]) -> Result<(), LineRefusal>
        requires { IsHeader self.old }
        ensures becomes { Becomes (workers_line self.old (words_of fields.now)) result self.new }
        ensures kept { OnOk result (IsHeader self.new) }
    {
        let workers = read_number(one_field(fields)?, 1, MAX_WORKERS)?;
        require(self.workers.is_none(), ScriptWhy::Twice)?;
        self.workers = Some(workers as u32);
        Ok(())
    }

    /// Takes the field of `print`.
    fn put_print(&mut self, fields: &[u8]) -> Result<(), LineRefusal>
        requires { IsHeader self.old }
        ensures becomes { Becomes (print_line self.old (words_of fields.now)) result self.new }
        ensures kept { OnOk result (IsHeader self.new) }
    {
        let full = read_full(one_field(fields)?)?;
        require(self.full.is_none(), ScriptWhy::Twice)?;
        self.full = Some(full);
        Ok(())
    }

    /// Takes the field of `realm`.
    fn put_realm(&mut self, alloc: Global, fields: &[u8]) -> Result<(), LineRefusal>
        requires { IsHeader self.old }
        ensures becomes { Becomes (realm_line self.old (words_of fields.now)) result self.new }
        ensures kept { OnOk result (IsHeader self.new) }
    {
        let text = one_field(fields)?;
        if self.realm.is_some() {
            return Err(LineRefusal::Why(ScriptWhy::Twice));
        }
        if text.len() > MAX_REALM {
            return Err(LineRefusal::Why(ScriptWhy::Limit));
        }
        self.realm = Some(Octets::copied_from(alloc, text)?);
        Ok(())
    }
}
