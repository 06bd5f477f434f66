ghost use Rattle.std.specs.Prelude.{◌≡◌, List, [], ℕ, false, IfOk, OnOk};
ghost use Rattle.std.specs.Io.KnownBytes.{append_known};
ghost use Rattle.ct_report.specs.Texts.{comments_text};
ghost use Rattle.ct_host.specs.Ends.{faults_after};
ghost use Rattle.ct_host.specs.Reports.{HasEnded, IsReport, IsVerdict, Prints, TellsTest, TellsTests, TellsVerdict, chosen_setting};

use crate::choosing::Chosen;
use crate::outputs::Outputs;
use crate::status::Status;
use crate::stop::Broken;
use ct_cases::Tester;
use ct_orders::{Ended, Retold, Verdict, Way, retell, retell_traced};
use ct_picture::picture;
use ct_report::{Counts, TestFile, delivery_text, passed, plan};
use ct_run::Runner;
use ct_script::Script;
use ct_words::Choice;
use ic_base::NoMemory;
use ic_outside::{Gate, Sink};
use ic_principal::Bytes;
use ic_state::Charge;
use std::alloc::Global;
use std::thread::Threads;

/// The limit and the price of instructions, the most states that an interleave may meet, and whether it is told what each
/// test did.
#[derive(Clone, Copy)]
pub(crate) struct Limits {
    pub(crate) charge: Charge,
    pub(crate) states: u32,
    pub(crate) trace: bool,
}

/// What tests are run with.
#[derive(Drop)]
pub(crate) struct Session<'i, R, G> {
    pub(crate) alloc: Global,
    pub(crate) rt: &'i R,
    pub(crate) gate: &'i G,
    pub(crate) limits: Limits,
}

fn verdict(counts: &Counts) -> Status
    ensures { IsVerdict counts.now result }
{
    if counts.all_passed() {
        Status::Passed
    } else {
        Status::Failed
    }
}

impl<'i, R: Threads + Sync, G: Gate + Sync> Session<'i, R, G> {
    fn tester(&self, chosen: &Chosen<'_, 'i, '_>) -> Tester<'i, R, G>
        ensures setting { result.setting ≡ chosen_setting self.now.limits chosen.now }
        ensures most { result.most ≡ self.now.limits.states }
    {
        let file = chosen.suite.test_file();
        let runner = Runner {
            alloc: self.alloc,
            rt: self.rt,
            gate: self.gate,
            charge: self.limits.charge,
            sources: file.sources,
            text: file.text,
        };
        Tester {
            runner,
            most: self.limits.states as usize,
        }
    }

    // Runs a test anew, along a way.
    fn retold(
        &self,
        chosen: &Chosen<'_, 'i, '_>,
        way: &Way,
        tells_statements: bool,
    ) -> Result<Retold<'i>, NoMemory> {
        let suite = chosen.suite;
        let tester = self.tester(chosen);
        let preamble = &suite.checked.preamble;
        retell_traced(&tester, preamble, chosen.test, way, tells_statements)
    }

    // How a test came to its end, where that is told: of one that failed, and of each that is traced.
    fn retold_of(
        &self,
        chosen: &Chosen<'_, 'i, '_>,
        ended: &Ended<'i>,
    ) -> Result<Retold<'i>, NoMemory> {
        let traces = self.limits.trace;
        match &ended.verdict {
            Verdict::Passed | Verdict::Undecided(_) if !traces => Ok(Retold::nothing(self.alloc)),
            _ => self.retold(chosen, &ended.way, traces),
        }
    }

    // Says what came of a test that ended so.
    fn verdict_of(
        &self,
        chosen: &Chosen<'_, 'i, '_>,
        ended: &Ended<'i>,
        told: &Retold<'i>,
        counts: &mut Counts,
    ) -> Result<Bytes, NoMemory>
        requires { HasEnded self.now.limits chosen.now ended.now }
        ensures { IfOk result (λ told. TellsVerdict self.now.limits chosen.now counts.old told counts.new) }
    {
        let alloc = self.alloc;
        let number = counts.next()?;
        let name = &chosen.test.name;
        let suite = chosen.suite;
        let file = suite.test_file();
        match &ended.verdict {
            Verdict::Passed => {
                counts.pass()?;
                passed(alloc, number, name)
            }
            Verdict::Failed(not_met) => {
                counts.fail()?;
                file.not_passed(alloc, number, name, not_met, told)
            }
            Verdict::Undecided(first) => {
                counts.leave()?;
                file.not_decided(alloc, number, name, first.place, self.limits.states)
            }
        }
    }

    // What a test did, as comments, where that is wanted.
    fn comments(&self, chosen: &Chosen<'_, 'i, '_>, told: &Retold<'i>) -> Result<Bytes, NoMemory>
        ensures { IfOk result (λ told. (comments : List (List ℕ)) × (self.now.limits.trace ≡ false → comments ≡ []) × (told ≡ comments_text comments)) }
    {
        if !self.limits.trace {
            return Ok(Bytes {
                items: Vec::new(self.alloc),
            });
        }
        let suite = chosen.suite;
        let text = suite.test_file().traced(self.alloc, told)?;
        Ok(text)
    }

    // Says what is printed of a test that ended so.
    fn told(
        &self,
        chosen: &Chosen<'_, 'i, '_>,
        ended: &Ended<'i>,
        counts: &mut Counts,
    ) -> Result<Bytes, NoMemory>
        requires { HasEnded self.now.limits chosen.now ended.now }
        ensures { IfOk result (λ told. TellsTest self.now.limits chosen.now counts.old told counts.new) }
    {
        let told = self.retold_of(chosen, ended)?;
        let mut text = self.verdict_of(chosen, ended, &told, counts)?;
        let comments = self.comments(chosen, &told)?;
        text.items.extend_from_slice(&comments.items)?;
        Ok(text)
    }

    // Runs a test, and says what is printed of it.
    fn test(&self, chosen: &Chosen<'_, 'i, '_>, counts: &mut Counts) -> Result<Bytes, NoMemory>
        ensures { IfOk result (λ told. TellsTest self.now.limits chosen.now counts.old told counts.new) }
    {
        let suite = chosen.suite;
        let tester = self.tester(chosen);
        let ended = ct_orders::test(&tester, &suite.checked.preamble, chosen.test)?;
        self.told(chosen, &ended, counts)
    }

    // Runs a test, and prints it when it ends.
    fn print_test<K: Sink + Drop, E: Sink + Drop>(
        &self,
        chosen: &Chosen<'_, 'i, '_>,
        tests: usize,
        counts: &mut Counts,
        outputs: &mut Outputs<K, E>,
    ) -> Result<(), Broken>
        ensures printed { OnOk result ((told : List ℕ) × TellsTest self.now.limits chosen.now counts.old told counts.new
            × (K.taken outputs.new.out ≡ append_known (K.taken outputs.old.out) told)) }
        ensures counted { K.faults outputs.new.out ≡ faults_after (K.faults outputs.old.out) result }
    {
        outputs.show(self.alloc, counts.next()?, tests, &chosen.test.name)?;
        let text = self.test(chosen, counts)?;
        outputs.clear();
        outputs.print(&text)
    }

    // Runs tests, and prints each when it ends.
    fn print_tests<K: Sink + Drop, E: Sink + Drop>(
        &self,
        tests: &[Chosen<'_, 'i, '_>],
        counts: &mut Counts,
        outputs: &mut Outputs<K, E>,
    ) -> Result<(), Broken>
        ensures printed { OnOk result ((told : List ℕ) × TellsTests self.now.limits tests.now counts.old told counts.new
            × (K.taken outputs.new.out ≡ append_known (K.taken outputs.old.out) told)) }
        ensures counted { K.faults outputs.new.out ≡ faults_after (K.faults outputs.old.out) result }
    {
        for chosen in tests {
            self.print_test(chosen, tests.len(), counts, outputs)?;
        }
        Ok(())
    }

    // Runs tests, and prints a report.
    fn report<K: Sink + Drop, E: Sink + Drop>(
        &self,
        tests: &[Chosen<'_, 'i, '_>],
        outputs: &mut Outputs<K, E>,
    ) -> Result<Status, Broken>
        ensures printed { IfOk result (λ status. (report : List ℕ) × IsReport self.now.limits tests.now report status
            × (K.taken outputs.new.out ≡ append_known (K.taken outputs.old.out) report)) }
        ensures counted { K.faults outputs.new.out ≡ faults_after (K.faults outputs.old.out) result }
    {
        outputs.print(&plan(self.alloc, tests.len())?)?;
        let mut counts = Counts::new();
        self.print_tests(tests, &mut counts, outputs)?;
        outputs.print(&counts.text(self.alloc)?)?;
        Ok(verdict(&counts))
    }

    // Adds the delivery at which a script ends, if no pick takes it.
    fn push_cut(
        &self,
        file: &TestFile<'i>,
        retold: &Retold<'i>,
        script: &mut Script,
    ) -> Result<(), NoMemory> {
        if !retold.is_cut {
            return Ok(());
        }
        if let Some(told) = retold.interleaves.last() {
            if let Some(delivery) = told.deliveries.last() {
                let names = &told.names.items;
                let text = delivery_text(self.alloc, file.sources, names, delivery)?;
                script.no_pick(&text)?;
            }
        }
        Ok(())
    }

    // What a test does, as a script.
    fn script_of(&self, chosen: &Chosen<'_, 'i, '_>) -> Result<Bytes, NoMemory> {
        let alloc = self.alloc;
        let Charge { limit, price } = self.limits.charge;
        let mut script = Script::begin(alloc, limit, price)?;
        let suite = chosen.suite;
        let preamble = &suite.checked.preamble;
        let tester = self.tester(chosen);
        let Ended { way, .. } = ct_orders::test(&tester, preamble, chosen.test)?;
        let retold = retell(&tester, preamble, chosen.test, &way, &mut script)?;
        self.push_cut(&suite.test_file(), &retold, &mut script)?;
        Ok(Bytes {
            items: script.into_lines().unwrap_or(Vec::new(alloc)),
        })
    }

    // Prints the script of the first test.
    fn print_script<K: Sink + Drop, E: Sink + Drop>(
        &self,
        tests: &[Chosen<'_, 'i, '_>],
        outputs: &mut Outputs<K, E>,
    ) -> Result<Status, Broken>
        ensures printed { IfOk result (λ status. (script : List ℕ) × (status ≡ Status.Passed)
            × (K.taken outputs.new.out ≡ append_known (K.taken outputs.old.out) script)) }
        ensures counted { K.faults outputs.new.out ≡ faults_after (K.faults outputs.old.out) result }
    {
        if let Some(first) = tests.first() {
            outputs.print(&self.script_of(first)?)?;
        }
        Ok(Status::Passed)
    }

    // The order of a test, drawn.
    fn picture_of(&self, chosen: &Chosen<'_, 'i, '_>) -> Result<Bytes, NoMemory> {
        let suite = chosen.suite;
        let tester = self.tester(chosen);
        let Ended { verdict, way } = ct_orders::test(
            &tester,
            &suite.checked.preamble,
            chosen.test,
        )?;
        let told = self.retold(chosen, &way, true)?;
        let not_met = match &verdict {
            Verdict::Failed(not_met) => Some(not_met),
            Verdict::Passed | Verdict::Undecided(_) => None,
        };
        picture(self.alloc, &suite.test_file(), &told, not_met)
    }

    // Prints the picture of the first test.
    fn print_picture<K: Sink + Drop, E: Sink + Drop>(
        &self,
        tests: &[Chosen<'_, 'i, '_>],
        outputs: &mut Outputs<K, E>,
    ) -> Result<Status, Broken>
        ensures printed { IfOk result (λ status. (picture : List ℕ) × (status ≡ Status.Passed)
            × (K.taken outputs.new.out ≡ append_known (K.taken outputs.old.out) picture)) }
        ensures counted { K.faults outputs.new.out ≡ faults_after (K.faults outputs.old.out) result }
    {
        if let Some(first) = tests.first() {
            outputs.print(&self.picture_of(first)?)?;
        }
        Ok(Status::Passed)
    }

    /// Runs tests and reports what came of them, or prints the script or the picture of the first.
    pub(crate) fn perform<K: Sink + Drop, E: Sink + Drop>(
        &self,
        choice: &Choice,
        tests: &[Chosen<'_, 'i, '_>],
        outputs: &mut Outputs<K, E>,
    ) -> Result<Status, Broken>
        ensures printed { IfOk result (Prints self.now.limits choice.now tests.now (K.taken outputs.old.out) (K.taken outputs.new.out)) }
        ensures counted { K.faults outputs.new.out ≡ faults_after (K.faults outputs.old.out) result }
    {
        match choice {
            Choice::All => self.report(tests, outputs),
            Choice::Only(_) => self.report(tests, outputs),
            Choice::Script(_) => self.print_script(tests, outputs),
            Choice::Picture(_) => self.print_picture(tests, outputs),
        }
    }
}
