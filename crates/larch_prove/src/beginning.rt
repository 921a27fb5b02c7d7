ghost use Rattle.std.specs.Prelude.{◌≡◌, ◌+◌, All, IfErr, IfOk, map};
ghost use Rattle.larch_prove.specs.Prepared.{CanReplay, IsPreparedFor, duty_of, prepared_proof};
ghost use Rattle.larch_prove.specs.Begun.{AreOpenedSettings, HaveConstants, IsBegunFor, IsClaimOf, IsFirstFor};
ghost use Rattle.larch_prove.specs.Begun.{IsOpened, IsWorkFor};
ghost use Rattle.larch_prove.specs.State.{IsStateOf};
ghost use Rattle.larch_prove_beginning.specs.Beginning.{unopened_proof};
ghost use Rattle.larch_prove_resuming.specs.ProveLevelsSupposing.{TellsCode};
ghost use Rattle.larch_prove_meaning.specs.Replays.{AtOpening, begun_with, duty_opened, locate};
ghost use Rattle.larch_script_commands.specs.Worded.{WordedCommand};

use crate::duty::{ProofDuty, claim_of};
use crate::going::Going;
use crate::outcome::Place;
use crate::preparing::{Prepared, prepare_all};
use crate::state::{ProofState, Stage};
use larch_base::{Memory, Steps, let_go};
use larch_order::Precedence;
use larch_prove_beginning::from_prove_settings::{CommandRefusal, OrderedScope, Settings};
use larch_prove_beginning::{FirstDraft, Preamble, WholeDuty, open_duty};
use larch_prove_resuming::from_prove_work::{Claim, Work, command_refusal};
use larch_prove_resuming::from_rewrite::RewriteRefusal;
use larch_script_commands::RawCommand;
use larch_store::Store;
use larch_term::{Operator, Operators};
use std::alloc::Global;
use std::rc::Rc;
use std::sync::ledger::Ledger;

impl ProofState {
    /// A proof behind its preamble and its opening, with a rewriting limit that the preamble may set anew. It counts as
    /// one step, also where memory runs out.
    pub fn begin<L: Ledger>(
        alloc: Global,
        duty: &ProofDuty<'_>,
        preamble: &[RawCommand],
        limit: u32,
        steps: &mut Steps<L>,
    ) -> Result<ProofState, Memory>
        requires replays { CanReplay duty.now }
        requires worded { All WordedCommand preamble.now }
        ensures begun { IfOk result (λ state. IsStateOf duty.now.statement.now state
            (begun_with (duty_of duty.now) limit (map (λ c. c.kind) preamble.now))) }
        ensures ticks { steps.new ≡ steps.old + 1 }
    {
        steps.tick();
        begin(alloc, duty, preamble, limit)
    }
}

// The same, without counting it.
fn begin(
    alloc: Global,
    duty: &ProofDuty<'_>,
    preamble: &[RawCommand],
    limit: u32,
) -> Result<ProofState, Memory>
    requires replays { CanReplay duty.now }
    requires worded { All WordedCommand preamble.now }
    ensures { IfOk result (λ state. IsStateOf duty.now.statement.now state
        (begun_with (duty_of duty.now) limit (map (λ c. c.kind) preamble.now))) }
{
    let settings = Settings::new(alloc, duty.theory, limit)?;
    let mut prepared = Prepared {
        settings,
        checking: false,
    };
    let refused = prepare_all(alloc, &mut prepared, preamble)?;
    match refused {
        Some((place, code)) => Ok(ProofState {
            stage: Stage::Refused(place, code),
        }),
        None => {
            let stage = open(alloc, duty, &prepared)?;
            Ok(ProofState { stage })
        }
    }
}

// The opening of a duty behind its preamble.
fn open(alloc: Global, duty: &ProofDuty<'_>, prepared: &Prepared) -> Result<Stage, Memory>
    requires replays { CanReplay duty.now }
    requires prepared { IsPreparedFor (duty_of duty.now) prepared.now }
    ensures { IfOk result (IsOpened duty.now
        (locate AtOpening (duty_opened duty.now.statement.now (prepared_proof (duty_of duty.now) prepared.now)))) }
{
    match start(alloc, duty, prepared) {
        Ok(going) => Ok(Stage::Going(going)),
        Err(refusal) => match command_refusal(refusal) {
            CommandRefusal::Memory => Err(Memory),
            CommandRefusal::Wrong(code) => Ok(Stage::Refused(Place::Opening, code)),
        },
    }
}

// The same, where it isn't refused.
fn start(alloc: Global, duty: &ProofDuty<'_>, prepared: &Prepared) -> Result<Going, RewriteRefusal>
    requires replays { CanReplay duty.now }
    requires prepared { IsPreparedFor (duty_of duty.now) prepared.now }
    ensures begun { IfOk result (IsBegunFor duty.now
        (duty_opened duty.now.statement.now (prepared_proof (duty_of duty.now) prepared.now))) }
    ensures refused { IfErr result
        (TellsCode (duty_opened duty.now.statement.now (prepared_proof (duty_of duty.now) prepared.now))) }
{
    let claim = claim_of(alloc, duty)?;
    start_claim(alloc, duty, claim, prepared)
}

// The same of its claim.
fn start_claim(
    alloc: Global,
    duty: &ProofDuty<'_>,
    claim: Claim,
    prepared: &Prepared,
) -> Result<Going, RewriteRefusal>
    requires replays { CanReplay duty.now }
    requires claim { IsClaimOf duty.now claim }
    requires prepared { IsPreparedFor (duty_of duty.now) prepared.now }
    ensures begun { IfOk result (IsBegunFor duty.now
        (duty_opened duty.now.statement.now (prepared_proof (duty_of duty.now) prepared.now))) }
    ensures refused { IfErr result
        (TellsCode (duty_opened duty.now.statement.now (prepared_proof (duty_of duty.now) prepared.now))) }
{
    let again = ProofDuty {
        theory: duty.theory,
        statement: duty.statement,
        lemmas: duty.lemmas,
    };
    let work = start_work(alloc, again, &claim, prepared)?;
    Ok(going_from(alloc, claim, work)?)
}

// What goes on, of a claim and what is worked on.
fn going_from(alloc: Global, claim: Claim, work: Work) -> Result<Going, Memory>
    ensures claim { IfOk result (λ going. going.claim.value ≡ claim) }
    ensures work { IfOk result (λ going. going.work ≡ work) }
    ensures commands { IfOk result (λ going. going.commands ≡ 0) }
{
    let claim = Rc::new(alloc, claim)?;
    Ok(Going {
        alloc,
        claim,
        work,
        commands: 0,
    })
}

// What is worked on behind the opening of a claim.
fn start_work<'a>(
    alloc: Global,
    duty: ProofDuty<'a>,
    claim: &'a Claim,
    prepared: &Prepared,
) -> Result<Work, RewriteRefusal>
    requires replays { CanReplay duty }
    requires claim { IsClaimOf duty claim.now }
    requires prepared { IsPreparedFor (duty_of duty) prepared.now }
    ensures started { IfOk result (IsWorkFor duty.entry
        (duty_opened duty.entry.statement.now (prepared_proof (duty_of duty.entry) prepared.now))) }
    ensures refused { IfErr result
        (TellsCode (duty_opened duty.entry.statement.now (prepared_proof (duty_of duty.entry) prepared.now))) }
{
    let mut precedence = prepared.settings.precedence.copy()?;
    let mut store = Store::new(alloc)?;
    let first = open_claim(alloc, &mut store, &mut precedence, &duty, claim, prepared)?;
    Ok(work_from(alloc, prepared, store, precedence, first)?)
}

// The draft of a claim behind a preamble.
fn open_claim<'a>(
    alloc: Global,
    store: &mut Store,
    precedence: &mut Precedence,
    duty: &ProofDuty<'a>,
    claim: &'a Claim,
    prepared: &Prepared,
) -> Result<FirstDraft, RewriteRefusal>
    requires replays { CanReplay duty.now }
    requires claim { IsClaimOf duty.now claim.now }
    ensures opened { IfOk result (λ first. IsFirstFor duty.now claim.now store.new first precedence.new
        prepared.now.settings.limit (duty_opened duty.now.statement.now
        (unopened_proof (duty_of duty.now) prepared.now.settings.scope.value precedence.old prepared.now.settings.limit
        prepared.now.checking))) }
    ensures refused { IfErr result (TellsCode
        (duty_opened duty.now.statement.now
        (unopened_proof (duty_of duty.now) prepared.now.settings.scope.value precedence.old prepared.now.settings.limit
        prepared.now.checking))) }
{
    let preamble = Preamble {
        scope: &prepared.settings.scope,
        limit: prepared.settings.limit,
        checking: prepared.checking,
    };
    let whole = WholeDuty {
        theory: duty.theory,
        lemmas: duty.lemmas,
        whole: &claim.theory,
        statement: duty.statement,
    };
    open_duty(alloc, store, precedence, &whole, &preamble)
}

// What is worked on, of the draft of a claim.
fn work_from(
    alloc: Global,
    prepared: &Prepared,
    store: Store,
    precedence: Precedence,
    first: FirstDraft,
) -> Result<Work, Memory>
    ensures store { IfOk result (λ work. work.store ≡ store) }
    ensures draft { IfOk result (λ work. work.draft ≡ first.draft) }
    ensures settings { IfOk result (λ work.
        AreOpenedSettings prepared.now.settings first.constants first.scope precedence work.settings) }
{
    let FirstDraft {
        draft,
        constants,
        scope,
    } = first;
    match settings_behind(alloc, prepared, constants, scope, precedence) {
        Ok(settings) => Ok(Work {
            settings,
            store,
            draft,
        }),
        Err(memory) => Err(let_go(memory, (store, draft))),
    }
}

// The settings of a preamble, with the constants that were made, another scope and another precedence.
fn settings_behind(
    alloc: Global,
    prepared: &Prepared,
    constants: Operators,
    scope: OrderedScope,
    precedence: Precedence,
) -> Result<Settings, Memory>
    ensures { IfOk result (AreOpenedSettings prepared.now.settings constants scope precedence) }
{
    let scope = Rc::new(alloc, scope)?;
    let precedence = Rc::new(alloc, precedence)?;
    let settings = settings_with(alloc, prepared, constants.as_slice())?;
    Ok(put_order(settings, scope, precedence))
}

// The settings of a preamble with further constants.
fn settings_with(
    alloc: Global,
    prepared: &Prepared,
    constants: &[Operator],
) -> Result<Settings, Memory>
    ensures { IfOk result (HaveConstants prepared.now.settings constants.now) }
{
    let mut settings = prepared.settings.copy()?;
    settings.name_constants(alloc, constants)?;
    Ok(settings)
}

// The settings with another scope and another precedence.
fn put_order(settings: Settings, scope: Rc<OrderedScope>, precedence: Rc<Precedence>) -> Settings
    ensures { result ≡ record settings { scope = scope; precedence = precedence } }
{
    let mut settings = settings;
    settings.scope = scope;
    settings.precedence = precedence;
    settings
}
