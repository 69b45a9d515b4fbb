//! Reads a policy file.
ghost use Rattle.std.specs.Prelude.{◌≡◌, ℕ, List, [], Result, Err, IfOk, IfErr};
ghost use Rattle.sc_ast.specs.declared.policy.Policy.{Policy as AnyPolicy};
ghost use Rattle.sc_lexer.specs.Reading.{Lexes};
ghost use Rattle.sc_lists.specs.Told.{Gives};
ghost use Rattle.sc_parser.specs.declared.fault.PolicyFault.{PolicyFault as AnyFault};
ghost use Rattle.sc_lexemes.specs.Outcomes.{halt};
ghost use Rattle.sc_parser.specs.ReadsFiles.{ReadsPolicies};
ghost use Rattle.sc_parser.specs.Spelling.{AreLexemes, Spells, HasFault, IsReading, ReadFails, fault_of};

use crate::fault::PolicyFault;
use crate::policy::policies;
use sc_ast::{Place, PolicySet};
use sc_lexemes::{Lexeme, Stop, lexemes_of};
use sc_lexer::{LexFault, tokens};
use sc_lists::Fault;
use std::alloc::Global;

/// The place of a byte.
fn place_of(byte: usize) -> Place
    ensures { result ≡ record { offset = byte } }
{
    Place {
        offset: byte as u64,
    }
}

/// The fault of a file that has no tokens.
#[tactic(auto, using(crate::specs::Spelling::ill_formed, crate::specs::Spelling::no_token, crate::specs::Spelling::no_escape))]
fn lexical(fault: LexFault) -> PolicyFault
    ensures { (bytes : List ℕ) → Lexes bytes (Err fault) → HasFault bytes result }
{
    match fault {
        LexFault::BadUtf8(byte) => PolicyFault::BadUtf8(place_of(byte)),
        LexFault::BadToken(byte) => PolicyFault::BadToken(place_of(byte)),
        LexFault::BadEscape(byte) => PolicyFault::BadEscape(place_of(byte)),
    }
}

/// The fault of a token at which reading stops.
fn fault_of(stop: Stop, place: Place) -> PolicyFault
    ensures { result ≡ fault_of stop place }
{
    match stop {
        Stop::TooManyPolicies => PolicyFault::TooManyPolicies,
        Stop::Template => PolicyFault::Template(place),
        Stop::TooDeep => PolicyFault::TooDeep(place),
        Stop::IntRange => PolicyFault::IntRange(place),
        Stop::DuplicateKey => PolicyFault::DuplicateKey(place),
        Stop::BadCall => PolicyFault::BadCall(place),
        Stop::Unexpected | Stop::NoMemory => PolicyFault::Unexpected(place),
    }
}

/// The fault of a file at whose token of this number reading stops, or where its tokens end.
#[tactic(auto, using(crate::proofs::ReadingLaws::reads_fault, crate::proofs::ReadingLaws::reads_end))]
fn fault_at(ts: &[Lexeme], at: usize, stop: Stop) -> PolicyFault
    ensures { (bytes : List ℕ) → AreLexemes bytes ts.now → ReadsPolicies ts.now 0 [] (halt stop at)
        → HasFault bytes result }
{
    match ts.get(at) {
        Some(token) => fault_of(stop, token.place),
        None => PolicyFault::UnexpectedEnd,
    }
}

/// The policies that the tokens of a file spell, or the file's first fault.
#[tactic(auto, using(crate::proofs::ReadingLaws::reads_spelled))]
fn read_lexemes(alloc: Global, ts: &[Lexeme]) -> Result<PolicySet, Fault<PolicyFault>>
    ensures ok { IfOk result (λ ps. (bytes : List ℕ) → AreLexemes bytes ts.now → Spells bytes ps) }
    ensures err { IfErr result (λ f. (bytes : List ℕ) → AreLexemes bytes ts.now → ReadFails bytes f) }
{
    let mut at = 0;
    match policies(alloc, ts, &mut at) {
        Ok(policies) => Ok(policies),
        Err(Stop::NoMemory) => Err(Fault::NoMemory),
        Err(stop) => Err(Fault::Told(fault_at(ts, at, stop))),
    }
}

/// The policies of a file, or its first fault.
#[tactic(auto, using(crate::proofs::ReadingLaws::lexemes_are))]
fn read_file(alloc: Global, bytes: &[u8]) -> Result<PolicySet, Fault<PolicyFault>>
    ensures ok { IfOk result (Spells bytes.now) }
    ensures err { IfErr result (ReadFails bytes.now) }
{
    let tokens = match tokens(alloc, bytes) {
        Ok(tokens) => tokens,
        Err(Fault::Told(fault)) => return Err(Fault::Told(lexical(fault))),
        Err(Fault::NoMemory) => return Err(Fault::NoMemory),
    };
    let lexemes = lexemes_of(alloc, bytes, tokens.as_slice())?;
    read_lexemes(alloc, lexemes.as_slice())
}

/// Reads a policy file: its policies, in order, or its first fault. Of a fault the place is that of
/// the token, or of the bytes, at which no policy file goes on, or that passes a limit.
#[tactic(auto, using(crate::proofs::ReadingLaws::gives_reading))]
pub fn read_policies(alloc: Global, bytes: &[u8]) -> Result<PolicySet, Fault<PolicyFault>>
    // The file spells the policies that are read.
    ensures ok { IfOk result (Spells bytes.now) }
    // The fault is the file's first.
    ensures err { IfErr result (ReadFails bytes.now) }
    // A file is read in one way, so that is the answer, unless memory runs out.
    ensures complete { (told : Result (List AnyPolicy) AnyFault) → IsReading bytes.now told → Gives result told }
{
    read_file(alloc, bytes)
}

/// A file is read in one way.
#[tactic(auto, using(crate::proofs::ReadingLaws::one_reading))]
pub fn reading_laws()
    // It spells one list of policies, or has one first fault.
    ensures one { (bytes : List ℕ) (a b : Result (List AnyPolicy) AnyFault) → IsReading bytes a → IsReading bytes b → a
        ≡ b }
    // A file that spells policies has no fault.
    ensures apart { (bytes : List ℕ) (ps : List AnyPolicy) (f : AnyFault) → Spells bytes ps → HasFault bytes f → ⊥ }
{}
