// What a session holds.
ghost use Rattle.std.specs.Prelude.{◌≡◌, ◌⊎◌, IfOk, option_and_then};
ghost use Rattle.spec_runs.specs.Solve.{solve_end};
ghost use Rattle.spec_server.specs.Machine as machine;
ghost use Rattle.spec_server.specs.Step as step;
ghost use Rattle.spec_server.specs.declared.asks.Ask.TheVariants as asks;
ghost use Rattle.spec_server.specs.declared.asks.Reply.TheVariants as replies;
ghost use Rattle.spec_server.specs.declared.command.Plain.TheVariants as commands;
ghost use Rattle.lp_solve.specs.Fit.{LeavesBasis};
ghost use Rattle.lp_session.specs.Parts.{IsFormHeld, IsEndOf, FitsForm, IsSolvedBy, BeginsSo, WorksSo, reply_unapplied};

use crate::awaited::Pending;
use crate::working::{how_by, is_found, words_of_end};
use lp_certificate::RawCertificate;
use lp_form::{Basis, Form, form, unpack};
use lp_frac::{Frac, Fracs};
use lp_line::{
    Ask, Refusal, Reply, answer_of, certificate_lines, pivots_of, verdict_on, wide_lines,
};
use lp_model::{Edit, EditError, EditFault, Model, UsualModel, apply};
use lp_mps::write::{WriteStop, fixed, free};
use lp_solve::{End, OPENING_BUDGET, solve_exactly, solve_formed, solve_formless};
use spec_board::{BasisWords, Found};
use spec_mps::Style;
use spec_runs::Route;
use spec_server::{How, Plain, Publication};
use std::alloc::{AllocError, Global};
use std::ops::ControlFlow;
use std::{marker, mem};

// What a session keeps of its last solve.
type LastAnswer = spec_server::LastAnswer<Frac, Fracs, Basis>;

/// What a session holds: its model once one is loaded, its budget and what its last solve ended with.
#[derive(Drop)]
pub(crate) struct Holding {
    model: Option<UsualModel>,
    budget: u32,
    last: Option<LastAnswer>,
}

impl marker::Model for Holding {
    ghost use Rattle.spec_server.specs.LastFits.{LastFits};
    ghost use Rattle.spec_server.specs.Machine.{State};

    ghost Value = { State };

    ghost view = { λ s. record { model = s.model; budget = s.budget; last = s.last } };

    ghost invariant = { λ s. LastFits s.model s.last };
}

impl Holding {
    /// A session that holds no model.
    pub(crate) fn new() -> Self
        ensures { result ≡ machine.opening }
    {
        Holding {
            model: None,
            budget: OPENING_BUDGET as u32,
            last: None,
        }
    }

    /// Begins a request. It breaks off with a reply, or goes on with the form of the model that is to be solved. If
    /// memory runs out the reply is `Memory`, and all is as it was.
    pub(crate) fn begin(&mut self, alloc: Global, ask: Ask) -> ControlFlow<Reply, Form>
        ensures { BeginsSo self.old ask result self.new }
    {
        match ask {
            Ask::Plain(asked) => self.answer(alloc, asked),
            Ask::Loaded(model) => ControlFlow::Break(self.load(model)),
            Ask::Misspelled(fault) => ControlFlow::Break(Reply::Refused(Refusal::Misspelled(
                fault,
            ))),
            Ask::Checked(raw) => ControlFlow::Break(self.check(alloc, &raw)),
            Ask::Unfit(line) => ControlFlow::Break(Reply::Refused(Refusal::Unfit(line))),
            Ask::Bad(fault) => ControlFlow::Break(Reply::Refused(Refusal::Bad(fault))),
        }
    }

    // Replaces the model, and forgets the last answer.
    fn load(&mut self, model: UsualModel) -> Reply
        ensures { step.Begins self.old (asks.Loaded model) (step.Answers result self.new) }
    {
        let reply = Reply::Loaded(model.model().rows(), model.model().cols());
        drop(self.last.take()); // the old model's
        drop(self.model.replace(model));
        reply
    }

    // Begins the request of a command of one line.
    fn answer(&mut self, alloc: Global, asked: Plain<Edit>) -> ControlFlow<Reply, Form>
        ensures { BeginsSo self.old (asks.Plain asked) result self.new }
    {
        match asked {
            Plain::Write(style) => ControlFlow::Break(self.write(alloc, style)),
            Plain::Solve => self.begin_solve(alloc),
            Plain::Cert => ControlFlow::Break(self.certify(alloc)),
            Plain::How => ControlFlow::Break(self.how()),
            Plain::Budget(budget) => {
                self.budget = budget;
                ControlFlow::Break(Reply::Done)
            }
            Plain::Wide => ControlFlow::Break(self.widen(alloc)),
            Plain::Quit => {
                drop(mem::replace(self, Holding::new()));
                ControlFlow::Break(Reply::Bye)
            }
            Plain::Change(edit) => ControlFlow::Break(self.change(alloc, edit)),
        }
    }

    // Applies an edit to the model, and replies. One that is done forgets the last answer. Without a model, where the
    // edit is refused or memory runs out, all is as it was, and the reply says so.
    fn change(&mut self, alloc: Global, edit: Edit) -> Reply
        ensures { step.Begins self.old (asks.Plain (commands.Change edit)) (step.Answers result self.new) }
    {
        let Some(model) = &mut self.model else {
            return Reply::Refused(Refusal::NoModel);
        };
        match apply(alloc, model, edit) {
            Ok(()) => {
                drop(self.last.take()); // of the model before the edit
                Reply::Done
            }
            Err(error) => reply_unapplied(error),
        }
    }

    // Begins a solve: goes on with the form of the model. A model without one is answered at once, as the cold solve
    // does. Without a model the reply is a refusal, and `Memory` where memory runs out.
    fn begin_solve(&mut self, alloc: Global) -> ControlFlow<Reply, Form>
        ensures { BeginsSo self.old (asks.Plain commands.Solve) result self.new }
    {
        let Some(model) = &self.model else {
            return ControlFlow::Break(Reply::Refused(Refusal::NoModel));
        };
        let model = model.model();
        match form(alloc, model) {
            Ok(form) => ControlFlow::Continue(form),
            Err(stop) => match solve_formless(model, stop) {
                Ok((end, _)) => {
                    ControlFlow::Break(self.keep(end, How::Cold, Publication::Nothing))
                }
                Err(_) => ControlFlow::Break(Reply::Memory),
            },
        }
    }

    /// Solves the model, whose form this is, from the basis that was found, if one was.
    pub(crate) fn solve(
        &self,
        alloc: Global,
        form: &Form,
        found: Option<Found<BasisWords>>,
    ) -> Result<(End, Route), AllocError>
        requires held { IsFormHeld self.now.model form.now }
        requires fits { FitsForm form.now found }
        ensures solved { IfOk result (λ s. IsSolvedBy self.now.model self.now.budget found (solve_end s)) }
        ensures basis { IfOk result (λ s. LeavesBasis form.now s.0) }
    {
        prove!(form.rows() <= 256);
        let Some(model) = &self.model else {
            unreachable!()
        };
        let model = model.model();
        let budget = u64::from(self.budget);
        match found {
            Some(place) => {
                let basis = unpack(alloc, &place.words)?;
                solve_formed(alloc, model, budget, form, Some(&basis))
            }
            None => solve_formed(alloc, model, budget, form, None),
        }
    }

    /// Keeps what a solve with what was found ended with, and breaks off with the reply. Where an optimum has another
    /// basis than the one found, it keeps nothing yet, and goes on with the answer, whose basis is to be published
    /// first.
    pub(crate) fn conclude(
        &mut self,
        form: &Form,
        found: Option<Found<BasisWords>>,
        end: End,
        route: Route,
    ) -> ControlFlow<Reply, Pending>
        requires held { IsFormHeld self.old.model form.now }
        requires solved { IsSolvedBy self.old.model self.old.budget found (solve_end (end, route)) }
        requires basis { LeavesBasis form.now end }
        ensures { WorksSo self.old found result self.new }
    {
        let how = how_by(found, route);
        match words_of_end(form, &end) {
            None => ControlFlow::Break(self.keep(end, how, Publication::Nothing)),
            Some(words) if is_found(found, &words) => {
                ControlFlow::Break(self.keep(end, how, Publication::Same))
            }
            Some(words) => ControlFlow::Continue(Pending { end, how, words }),
        }
    }

    /// Solves the model with what was found, and keeps the answer and breaks off with the reply, or goes on with an
    /// answer whose basis is to be published. If memory runs out the reply is `Memory`, and all is as it was.
    pub(crate) fn work(
        &mut self,
        alloc: Global,
        form: &Form,
        found: Option<Found<BasisWords>>,
    ) -> ControlFlow<Reply, Pending>
        requires held { IsFormHeld self.old.model form.now }
        requires fits { FitsForm form.now found }
        ensures { WorksSo self.old found result self.new }
    {
        match self.solve(alloc, form, found) {
            Ok((end, route)) => self.conclude(form, found, end, route),
            Err(_) => ControlFlow::Break(Reply::Memory),
        }
    }

    /// Keeps what a solve of the model ended with as the last answer, and replies with it.
    pub(crate) fn keep(&mut self, solved: End, how: How, publication: Publication) -> Reply
        requires { IsEndOf self.old.model solved }
        ensures reply { result ≡ step.answered self.old solved }
        ensures kept { self.new ≡ step.with_answer self.old solved how publication }
    {
        let answer = answer_of(self.budget, &solved);
        self.last = Some(LastAnswer {
            solved,
            how,
            publication,
        });
        answer
    }

    /// The pivots and flips of the last answer; none where there is no last answer, or its solve ended without one.
    pub(crate) fn pivots(&self) -> Option<u64>
        ensures { result ≡ option_and_then (λ last. machine.pivots_of_solved last.solved) self.now.last }
    {
        match &self.last {
            Some(last) => pivots_of(&last.solved),
            None => None,
        }
    }

    // The reply with the lines of the last answer's certificate, or a refusal where there is no last answer. A solve
    // that ended without an answer has no lines. If memory runs out the reply is `Memory`.
    fn certify(&self, alloc: Global) -> Reply
        ensures { (result ≡ machine.cert_reply self.now.model self.now.last) ⊎ (result ≡ replies.Memory) }
    {
        match (&self.model, &self.last) {
            (Some(model), Some(last)) => match certificate_lines(
                alloc,
                model.model(),
                &last.solved,
            ) {
                Ok(lines) => Reply::Certified(lines),
                Err(_) => Reply::Memory,
            },
            _ => Reply::Refused(Refusal::NoAnswer),
        }
    }

    // The reply with the lines of an exact solve of the model, of which nothing is kept; a refusal without a model, and
    // `Memory` where memory runs out.
    fn widen(&self, alloc: Global) -> Reply
        ensures { step.Begins self.now (asks.Plain commands.Wide) (step.Answers result self.now) }
    {
        let Some(model) = &self.model else {
            return Reply::Refused(Refusal::NoModel);
        };
        let Ok(end) = solve_exactly(alloc, model.model(), u64::from(self.budget), None) else {
            return Reply::Memory;
        };
        let lines = wide_lines(alloc, model.model(), &end);
        drop(end);
        match lines {
            Ok(lines) => Reply::Wide(lines),
            Err(_) => Reply::Memory,
        }
    }

    // The reply that says how the last answer was found, its pivots, and what became of its basis; a refusal where
    // there is no last answer.
    fn how(&self) -> Reply
        ensures { result ≡ machine.how_reply self.now.last }
    {
        let Some(last) = &self.last else {
            return Reply::Refused(Refusal::NoAnswer);
        };
        Reply::Found {
            how: last.how,
            pivots: pivots_of(&last.solved),
            publication: last.publication,
        }
    }

    // The reply with the text of the model in this style, or a refusal: without a model, or of an item that is too wide
    // for fixed form. If memory runs out the reply is `Memory`. The session is left as it was.
    fn write(&self, alloc: Global, style: Style) -> Reply
        ensures { (result ≡ machine.write_reply self.now.model style) ⊎ (result ≡ replies.Memory) }
    {
        let Some(model) = &self.model else {
            return Reply::Refused(Refusal::NoModel);
        };
        match style {
            Style::Free => match free(alloc, model.model()) {
                Ok(text) => Reply::Written(text),
                Err(_) => Reply::Memory,
            },
            Style::Fixed => match fixed(alloc, model.model()) {
                Ok(text) => Reply::Written(text),
                Err(WriteStop::TooWide(item)) => Reply::Refused(Refusal::FixedWide(item)),
                Err(WriteStop::NoMemory) => Reply::Memory,
            },
        }
    }

    // The reply with the verdict on a certificate of the model, or a refusal where there is no model or the
    // certificate's names do not fit it; `Memory` where memory runs out. The session is left as it was.
    fn check(&self, alloc: Global, raw: &RawCertificate) -> Reply
        ensures { (result ≡ machine.check_reply self.now.model raw.now) ⊎ (result ≡ replies.Memory) }
    {
        let Some(model) = &self.model else {
            return Reply::Refused(Refusal::NoModel);
        };
        verdict_on(alloc, model.model(), raw).unwrap_or(Reply::Memory)
    }
}

// The reply to an edit that was refused, or for which memory ran out.
fn reply_unapplied(error: EditError) -> Reply
    ensures { result ≡ reply_unapplied error }
{
    match error {
        EditError::Fault(EditFault::UnknownName(name)) => Reply::Refused(Refusal::Name(name)),
        EditError::Fault(EditFault::Taken(name)) => Reply::Refused(Refusal::Taken(name)),
        EditError::Fault(EditFault::Limit(which, count)) => {
            Reply::Refused(Refusal::Limit(which, count))
        }
        EditError::Fault(EditFault::BadName) => Reply::Refused(Refusal::BadName),
        EditError::Fault(EditFault::Repeated(name)) => Reply::Refused(Refusal::Repeated(name)),
        EditError::Fault(EditFault::FreeRow(name)) => Reply::Refused(Refusal::FreeRow(name)),
        EditError::NoMemory => Reply::Memory,
    }
}
