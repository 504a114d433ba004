//! What the lines so far say.

ghost use Rattle.std.specs.Prelude.{◌≡◌, ◌==◌, ◌&&◌, not, is_some, [], List, length, IfOk, IfSome, OnErr, OnOk};
ghost use Rattle.std.specs.Option.{option_map, unwrap_or};
ghost use Rattle.auc_subs.specs.declared.row.Row.{Row};
ghost use Rattle.auc_subs.specs.Subscriber.{AreSubscribers};
ghost use Rattle.auc_text.specs.Text.{words_of};
ghost use Rattle.auc_script.specs.Limits.{IsBlock, IsWithin};
ghost use Rattle.auc_script.specs.Reading.{beginning_of, script_from};
ghost use Rattle.auc_script.specs.InnerRefusal.{Becomes};
ghost use Rattle.auc_script.specs.Scenario.{after_line, cause_of, header_line, is_block, job_line, jobs_in, of_job_line, restart_line, round_line, subscriber_line, with_round, word_line};
ghost use Rattle.auc_script.specs.declared.form.Form.TheVariants as forms;
ghost use Rattle.auc_script.specs.InnerSoFar.{IsBetween, IsHeader, IsSoFar, scenario, with_line};

use crate::form::Form;
use crate::header::Header;
use crate::holders::Holders;
use crate::limits::{MAX_JOBS, MAX_ROUNDS};
use crate::line_order::asked_with;
use crate::round_so_far::RoundSoFar;
use crate::script::Script;
use crate::sessions::Sessions;
use auc_lines::{Line, Part, RoundPart};
use auc_memory::{Items, NoMemory, Octets};
use auc_reading::{
    HeaderWord, JobWord, LineRefusal, ScriptWhy, Word, is_comment, no_field, read_line, read_word,
    require,
};
use auc_subs::{AddRefusal, SubsWhy, Subscribers};
use auc_text::next_word;
use std::alloc::Global;

/// What the lines so far say, except the subscribers.
#[derive(Drop)]
pub struct SoFar {
    /// What the lines are read as.
    pub form: Form,
    /// The words of the header.
    pub header: Header,
    /// The parts before the present round.
    pub ended: Items<Part>,
    /// The present round, if one has begun after the last restart.
    pub round: Option<RoundSoFar>,
    /// How many rounds there are.
    pub rounds: usize,
    /// How many jobs there are.
    pub jobs: usize,
    /// How many vectors their lines ask for.
    pub asked: u32,
    /// Which jobs of the present round hold each USIM.
    pub holders: Holders,
    /// The sessions.
    pub sessions: Sessions,
}

impl SoFar {
    /// The state before the first line.
    pub fn new(alloc: Global, form: Form) -> SoFar
        ensures beginning { (rows : List Row) → scenario rows result ≡ beginning_of form rows }
        ensures kept { (rows : List Row) → IsSoFar rows result }
    {
        let header = Header {
            key: None,
            workers: None,
            full: None,
            realm: None,
        };
        SoFar {
            form,
            header,
            ended: Items::new(alloc),
            round: None,
            rounds: 0,
            jobs: 0,
            asked: 0,
            holders: Holders {
                before: 0,
                marks: Vec::new(alloc),
            },
            sessions: Sessions::new(alloc),
        }
    }

    /// Takes a line, without its end.
    pub fn put(
        &mut self,
        alloc: Global,
        subs: &mut Subscribers,
        line: &[u8],
    ) -> Result<(), LineRefusal>
        requires { IsSoFar subs.old self.old }
        ensures becomes { Becomes (after_line (scenario subs.old self.old) line.now) result
            (scenario subs.new self.new) }
        ensures kept { OnOk result (IsSoFar subs.new self.new) }
        ensures rows { OnErr result (subs.new ≡ subs.old) }
        ensures block { self.old.form ≡ forms.Block → subs.new ≡ subs.old }
        ensures same { self.new.form ≡ self.old.form }
    {
        if is_comment(line) {
            return Ok(());
        }
        let Some((text, fields)) = next_word(line) else {
            return Ok(());
        };
        let word = read_word(text).ok_or(ScriptWhy::UnknownWord)?;
        self.put_word(alloc, subs, word, fields)
    }

    /// Takes the fields of a word.
    fn put_word(
        &mut self,
        alloc: Global,
        subs: &mut Subscribers,
        word: Word,
        fields: &[u8],
    ) -> Result<(), LineRefusal>
        requires { IsSoFar subs.old self.old }
        ensures becomes { Becomes (word_line (scenario subs.old self.old) word (words_of fields.now)) result
            (scenario subs.new self.new) }
        ensures kept { OnOk result (IsSoFar subs.new self.new) }
        ensures rows { OnErr result (subs.new ≡ subs.old) }
        ensures block { self.old.form ≡ forms.Block → subs.new ≡ subs.old }
        ensures same { self.new.form ≡ self.old.form }
    {
        match word {
            Word::Header(which) => self.put_header(alloc, which, fields),
            Word::Subscriber => self.put_subscriber(subs, fields),
            Word::Round => self.put_round(alloc, subs, fields),
            Word::Job => self.put_job(alloc, fields),
            Word::Restart => self.put_restart(alloc, subs, fields),
            Word::OfJob(which) => self.put_line(alloc, subs, which, fields),
        }
    }

    /// Takes the fields of a word of the header.
    fn put_header(
        &mut self,
        alloc: Global,
        word: HeaderWord,
        fields: &[u8],
    ) -> Result<(), LineRefusal>
        requires { IsHeader self.old.header }
        ensures becomes { (rows : List Row) → Becomes (header_line (scenario rows self.old) word (words_of fields.now)) result
            (scenario rows self.new) }
        ensures kept { (rows : List Row) → IsSoFar rows self.old → OnOk result (IsSoFar rows self.new) }
        ensures same { self.new.form ≡ self.old.form }
    {
        require(self.is_before_rounds(), ScriptWhy::OutOfOrder)?;
        self.header.put(alloc, word, fields)
    }

    /// Takes the fields of a subscriber.
    fn put_subscriber(&mut self, subs: &mut Subscribers, fields: &[u8]) -> Result<(), LineRefusal>
        requires { IsSoFar subs.old self.old }
        ensures becomes { Becomes (subscriber_line (scenario subs.old self.old) (words_of fields.now)) result
            (scenario subs.new self.new) }
        ensures kept { OnOk result (IsSoFar subs.new self.new) }
        ensures rows { OnErr result (subs.new ≡ subs.old) }
        ensures block { self.old.form ≡ forms.Block → subs.new ≡ subs.old }
        ensures same { self.new.form ≡ self.old.form }
    {
        require(self.is_before_rounds(), ScriptWhy::OutOfOrder)?;
        match subs.add_words(fields) {
            Ok(_) => Ok(()),
            Err(AddRefusal::Why(fault)) => Err(LineRefusal::Why(cause_of(fault))),
            Err(AddRefusal::NoMemory) => Err(LineRefusal::NoMemory),
        }
    }

    /// Begins a round.
    fn put_round(
        &mut self,
        alloc: Global,
        subs: &Subscribers,
        fields: &[u8],
    ) -> Result<(), LineRefusal>
        requires { IsSoFar subs.now self.old }
        ensures becomes { Becomes (round_line (scenario subs.now self.old) (words_of fields.now)) result
            (scenario subs.now self.new) }
        ensures kept { OnOk result (IsSoFar subs.now self.new) }
        ensures same { self.new.form ≡ self.old.form }
    {
        require(!self.form.is_header(), ScriptWhy::OutOfOrder)?;
        no_field(fields)?;
        if self.rounds >= MAX_ROUNDS {
            return Err(LineRefusal::Why(ScriptWhy::Limit));
        }
        require(
            !self.form.is_block() || self.round.is_none(),
            ScriptWhy::NotInBlock,
        )?;
        self.end_round(alloc, subs)?;
        self.round = Some(RoundSoFar {
            jobs: Items::new(alloc),
            job: None,
        });
        self.rounds += 1;
        Ok(())
    }

    /// Puts a restart after the present round.
    fn put_restart(
        &mut self,
        alloc: Global,
        subs: &Subscribers,
        fields: &[u8],
    ) -> Result<(), LineRefusal>
        requires { IsSoFar subs.now self.old }
        ensures becomes { Becomes (restart_line (scenario subs.now self.old) (words_of fields.now)) result
            (scenario subs.now self.new) }
        ensures kept { OnOk result (IsSoFar subs.now self.new) }
        ensures same { self.new.form ≡ self.old.form }
    {
        let Some(_) = &self.round else {
            return Err(LineRefusal::Why(ScriptWhy::OutOfOrder));
        };
        no_field(fields)?;
        require(!self.form.is_block(), ScriptWhy::NotInBlock)?;
        self.end_round(alloc, subs)?;
        self.ended.push(Part::Restart)?;
        Ok(())
    }

    /// Begins a job.
    fn put_job(&mut self, alloc: Global, fields: &[u8]) -> Result<(), LineRefusal>
        ensures becomes { (rows : List Row) → IsSoFar rows self.old
            → Becomes (job_line (scenario rows self.old) (words_of fields.now)) result (scenario rows self.new) }
        ensures kept { (rows : List Row) → IsSoFar rows self.old → OnOk result (IsSoFar rows self.new) }
        ensures same { self.new.form ≡ self.old.form }
    {
        let Some(round) = &mut self.round else {
            return Err(LineRefusal::Why(ScriptWhy::OutOfOrder));
        };
        no_field(fields)?;
        if self.jobs >= MAX_JOBS {
            return Err(LineRefusal::Why(ScriptWhy::Limit));
        }
        round.begin_job(alloc)?;
        self.sessions.begin_job(alloc);
        self.jobs += 1;
        Ok(())
    }

    /// Takes the fields of a job's line.
    fn put_line(
        &mut self,
        alloc: Global,
        subs: &Subscribers,
        word: JobWord,
        fields: &[u8],
    ) -> Result<(), LineRefusal>
        requires { IsSoFar subs.now self.old }
        ensures becomes { Becomes (of_job_line (scenario subs.now self.old) word (words_of fields.now)) result
            (scenario subs.now self.new) }
        ensures kept { OnOk result (IsSoFar subs.now self.new) }
        ensures same { self.new.form ≡ self.old.form }
    {
        let Some(round) = &self.round else {
            return Err(LineRefusal::Why(ScriptWhy::OutOfOrder));
        };
        let Some(_) = &round.job else {
            return Err(LineRefusal::Why(ScriptWhy::OutOfOrder));
        };
        let line = read_line(alloc, subs, word, fields)?;
        match asked_with(
            &self.sessions,
            &self.holders,
            self.asked,
            round,
            &line,
            self.form,
        ) {
            Ok(asked) => {
                self.holders.note(round, &line);
                let noted = self.sessions.note(&line);
                put_in_round(&mut self.round, line)?;
                noted?;
                self.asked = asked;
                Ok(())
            }
            Err(why) => {
                drop(line);
                Err(LineRefusal::Why(why))
            }
        }
    }

    /// Whether a line of a header may come: no round has begun, and it is no block.
    fn is_before_rounds(&self) -> bool
        ensures { result ≡ (not (is_block self.now.form) && not (is_some self.now.round) && (length self.now.ended == 0)) }
    {
        !self.form.is_block() && self.round.is_none() && self.ended.is_empty()
    }

    /// Puts the present round after the parts before it. If there is none, it makes a mark for each subscriber.
    fn end_round(&mut self, alloc: Global, subs: &Subscribers) -> Result<(), NoMemory>
        requires { IsSoFar subs.now self.old }
        ensures between { OnOk result (IsBetween subs.now self.old self.new) }
        ensures same { self.new.form ≡ self.old.form }
    {
        match self.round.take() {
            Some(round) => {
                self.ended.push(Part::Round(round.end()?))?;
                self.holders.before = self.jobs as u32;
            }
            None => self.holders = Holders::over(alloc, subs.len(), self.jobs as u32)?,
        }
        Ok(())
    }

    /// The script that the lines say.
    pub fn script(self, alloc: Global) -> Result<Script, NoMemory>
        ensures script { IfOk result (λ script. (rows : List Row) → script ≡ script_from (scenario rows self)) }
        ensures within { (rows : List Row) → AreSubscribers rows → IsSoFar rows self → IfOk result (IsWithin rows) }
    {
        let (header, ended, round) = self.into_read();
        let parts = with_round(ended, round)?;
        Ok(Script {
            key: header.key.unwrap_or([0; 32]),
            workers: header.workers.unwrap_or(1),
            full: header.full.unwrap_or(false),
            realm: header.realm.unwrap_or(Octets::new(alloc)),
            parts,
        })
    }

    /// The jobs of the present round.
    pub fn present_round(self) -> Result<Option<RoundPart>, NoMemory>
        ensures round { IfOk result (λ round. round ≡ option_map jobs_in self.round) }
        ensures within { (rows : List Row) → IsSoFar rows self → IfOk result (λ round. IfSome round (IsBlock rows)) }
    {
        let (header, ended, round) = self.into_read();
        drop(header);
        drop(ended);
        match round {
            Some(round) => Ok(Some(round.end()?)),
            None => Ok(None),
        }
    }

    /// What was read. All else is given back.
    fn into_read(self) -> (Header, Items<Part>, Option<RoundSoFar>)
        ensures { result ≡ (self.header, self.ended, self.round) }
    {
        let SoFar {
            header,
            ended,
            round,
            holders,
            sessions,
            ..
        } = self;
        drop(holders);
        drop(sessions);
        (header, ended, round)
    }
}

/// Parts with the present round after the last, if there is one.
fn with_round(ended: Items<Part>, round: Option<RoundSoFar>) -> Result<Items<Part>, NoMemory>
    ensures { IfOk result (λ parts. parts ≡ with_round ended round) }
{
    let mut parts = ended;
    if let Some(round) = round {
        parts.push(Part::Round(round.end()?))?;
    }
    Ok(parts)
}

/// Puts a line after the last of the present job.
fn put_in_round(round: &mut Option<RoundSoFar>, line: Line) -> Result<(), NoMemory>
    ensures { OnOk result (round.new ≡ with_line round.old line) }
{
    match round {
        Some(round) => round.put(line),
        None => {
            drop(line);
            Ok(())
        }
    }
}

/// What a fault of a subscriber's fields is as the cause of a line.
fn cause_of(fault: SubsWhy) -> ScriptWhy
    ensures { result ≡ cause_of fault }
{
    match fault {
        SubsWhy::FieldCount => ScriptWhy::Fields,
        _ => ScriptWhy::Subscriber(fault),
    }
}
