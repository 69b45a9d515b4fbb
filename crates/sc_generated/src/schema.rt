//! The schema of the policies.
ghost use Rattle.std.specs.Prelude.{◌≡◌};
ghost use Rattle.sc_generated.specs.Generated.{schema_text};

const SCHEMA: &str =
    r#"{"":{"entityTypes":{"Group":{"memberOfTypes":["Group"]},"User":{"memberOfTypes":["Group"],"shape":{"type":"Record","attributes":{"boss":{"type":"Entity","name":"User"},"age":{"type":"Long"},"nick":{"type":"String","required":false}}}},"Doc":{"shape":{"type":"Record","attributes":{"owner":{"type":"Entity","name":"User"}}}}},"actions":{"view":{"appliesTo":{"principalTypes":["User"],"resourceTypes":["Doc"],"context":{"type":"Record","attributes":{"n":{"type":"Long"},"s":{"type":"Set","element":{"type":"Boolean"}},"t":{"type":"Set","element":{"type":"Boolean"}},"q":{"type":"Set","element":{"type":"Long"}},"name":{"type":"String"},"addr":{"type":"Extension","name":"ipaddr"}}}}}}}}"#;

/// The schema under which the policies are asked about. Groups may be in groups; users may be in groups, and have a
/// boss, an age and perhaps a nickname; documents have an owner. The context has a number, which the policies
/// compare, three sets, a text and an address.
#[tactic(auto, unfolding(crate::specs::Generated::schema_text))]
pub fn schema_text() -> &'static str
    ensures { result.now ≡ schema_text }
{
    SCHEMA
}
