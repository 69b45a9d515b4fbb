//! Reads generated texts.
ghost use Rattle.std.specs.Prelude.{◌≡◌, ◌≤◌, List, IfOk, length, reverse};
ghost use Rattle.sc_ast.specs.declared.policy.Policy.{Policy as AnyPolicy};
ghost use Rattle.sc_generated.specs.Generated.{draws, forward, backward};
ghost use Rattle.sc_generated_laws.specs.Texts.{policies_in};
ghost use Rattle.sc_generated_typing_laws.specs.Schema.{declared};
ghost use Rattle.sc_parser.specs.Spelling.{Spells};

use sc_ast::PolicySet;
use sc_generated::{generate, schema_text};
use sc_generated_laws::generated_laws;
use sc_generated_typing_laws::generated_typing_laws;
use sc_parser::{read_policies, reading_laws};
use sc_schema::Schema;
use sc_schema_json::{read_schema, spelling_laws};
use std::alloc::{AllocError, Global};

/// The schema of generated policies. Its text spells one, so that memory alone can be wanting.
pub fn generated_schema(alloc: Global) -> Result<Schema, AllocError>
    ensures { IfOk result (λ s. s ≡ declared) }
{
    spelling_laws();
    generated_typing_laws();
    match read_schema(alloc, schema_text().as_bytes()) {
        Ok(schema) => Ok(schema),
        Err(_) => Err(AllocError),
    }
}

/// The policies that a text spells, where it spells some.
fn policies(alloc: Global, text: &str) -> Result<PolicySet, AllocError>
    ensures { (ps : List AnyPolicy) → Spells text.now ps → IfOk result (λ read. read ≡ ps) }
{
    reading_laws();
    match read_policies(alloc, text.as_bytes()) {
        Ok(policies) => Ok(policies),
        Err(_) => Err(AllocError),
    }
}

/// So many generated policies. Their text spells them, so that memory alone can be wanting.
pub fn forward_policies(alloc: Global, count: u64) -> Result<PolicySet, AllocError>
    requires size { count ≤ 1000 }
    ensures { IfOk result (λ ps. ps ≡ policies_in (length (forward count)) (draws count count)) }
{
    generated_laws();
    let texts = generate(alloc, count)?;
    policies(alloc, texts.forward.as_str())
}

/// The same in reverse order.
pub fn backward_policies(alloc: Global, count: u64) -> Result<PolicySet, AllocError>
    requires size { count ≤ 1000 }
    ensures { IfOk result (λ ps. ps ≡ policies_in (length (backward count)) (reverse (draws count count))) }
{
    generated_laws();
    let texts = generate(alloc, count)?;
    policies(alloc, texts.backward.as_str())
}
