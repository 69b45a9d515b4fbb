//! A schema of three entity types and two actions, of which one is in the other; a well-formed world
//! of it; and what parts of the world may be replaced by, with what that breaks.
use self::Told::{Entity, Missing, Nothing, Request};
use sc_lists::Text;
use sc_names::{Lits, Name, Uid, lits_of};
use sc_schema::Schema;
use sc_schema_json::read_schema;
use sc_world::World;
use sc_world_json::read_world;
use std::alloc::{AllocError, Global};

const SCHEMA: &str =
    r#"{"":{"entityTypes":{"Doc":{},"Team":{"memberOfTypes":["Team"]},"User":{"memberOfTypes":["Team"],"shape":{"type":"Record","attributes":{"addr":{"type":"Extension","name":"ipaddr","required":false},"friends":{"type":"Set","element":{"type":"Entity","name":"User"},"required":false},"level":{"type":"Long"},"nick":{"type":"String","required":false},"price":{"type":"Extension","name":"decimal","required":false}}},"tags":{"type":"String"}}},"actions":{"view":{"appliesTo":{"principalTypes":["Team","User"],"resourceTypes":["Doc","Team"],"context":{"type":"Record","attributes":{"mfa":{"type":"Boolean"}}}}}}},"Shop":{"actions":{"buy":{"memberOf":[{"id":"view","type":"Action"}]}}}}"#;

/// A document, a team, and a user in it, who asks to view the document.
const WORLD: &str =
    r#"{"entities":[{"attrs":{},"parents":[],"tags":{},"uid":{"id":"view","type":"Action"}},{"attrs":{},"parents":[],"tags":{},"uid":{"id":"d","type":"Doc"}},{"attrs":{},"parents":[{"id":"view","type":"Action"}],"tags":{},"uid":{"id":"buy","type":"Shop::Action"}},{"attrs":{},"parents":[],"tags":{},"uid":{"id":"t","type":"Team"}},{"attrs":{"level":1},"parents":[{"id":"t","type":"Team"}],"tags":{},"uid":{"id":"u","type":"User"}}],"request":{"action":{"id":"view","type":"Action"},"context":{"mfa":true},"principal":{"id":"u","type":"User"},"resource":{"id":"d","type":"Doc"}}}"#;

/// The context of the world's request.
const CONTEXT: &str = r#"{"mfa":true}"#;
/// The user's attributes.
const ATTRS: &str = r#"{"level":1}"#;
/// The end of the user, and the name of the request's action.
const USER_END: &str =
    r#""tags":{},"uid":{"id":"u","type":"User"}}],"request":{"action":{"id":"view""#;
/// What is stored of the document.
pub(crate) const DOC: &str =
    r#"{"attrs":{},"parents":[],"tags":{},"uid":{"id":"d","type":"Doc"}},"#;
/// What is stored of the document, and of the action that is in another.
const DOC_AND_BUY: &str =
    r#"{"attrs":{},"parents":[],"tags":{},"uid":{"id":"d","type":"Doc"}},{"attrs":{},"parents":[{"id":"view","type":"Action"}],"tags":{},"uid":{"id":"buy","type":"Shop::Action"}},"#;
/// What is stored of the action that another is in.
const VIEW: &str = r#"{"attrs":{},"parents":[],"tags":{},"uid":{"id":"view","type":"Action"}},"#;
/// What is stored of the team.
const TEAM: &str = r#"{"attrs":{},"parents":[],"tags":{},"uid":{"id":"t","type":"Team"}},"#;
/// The end of what is stored of the team, and the attributes of the user.
const TEAM_AND_ATTRS: &str = r#""tags":{},"uid":{"id":"t","type":"Team"}},{"attrs":{"level":1}"#;

/// What is told of a world: nothing, or what keeps it from being well-formed.
#[derive(Clone, Copy)]
pub(crate) enum Told {
    Nothing,
    Request,
    /// The entity of this type and id.
    Entity(&'static str, &'static str),
    /// An entity of this type and id, which isn't stored.
    Missing(&'static str, &'static str),
}

/// Parts of the world, what stands in their place, and what is told of the world then.
pub(crate) const CHANGES: &[(&str, &str, Told)] = &[
    (CONTEXT, CONTEXT, Nothing),
    // requests
    (CONTEXT, r#"{"mfa":false}"#, Nothing),
    (CONTEXT, "{}", Request),
    (CONTEXT, r#"{"mfa":1}"#, Request),
    (CONTEXT, r#"{"mfa":true,"more":1}"#, Request),
    (
        r#""principal":{"id":"u","type":"User"}"#,
        r#""principal":{"id":"d","type":"Doc"}"#,
        Request,
    ),
    (
        r#""resource":{"id":"d","type":"Doc"}"#,
        r#""resource":{"id":"u","type":"User"}"#,
        Request,
    ),
    (
        r#""request":{"action":{"id":"view""#,
        r#""request":{"action":{"id":"edit""#,
        Request,
    ),
    // a request and an entity at once
    (
        USER_END,
        r#""tags":{"t":1},"uid":{"id":"u","type":"User"}}],"request":{"action":{"id":"edit""#,
        Request,
    ),
    // attributes
    (ATTRS, r#"{"level":1,"nick":"al"}"#, Nothing),
    (ATTRS, "{}", Entity("User", "u")),
    (ATTRS, r#"{"level":true}"#, Entity("User", "u")),
    (ATTRS, r#"{"level":1,"nick":1}"#, Entity("User", "u")),
    (ATTRS, r#"{"level":1,"more":1}"#, Entity("User", "u")),
    (
        ATTRS,
        r#"{"addr":{"__extn":{"arg":"::1","fn":"ip"}},"level":1,"price":{"__extn":{"arg":"1.0","fn":"decimal"}}}"#,
        Nothing,
    ),
    (
        ATTRS,
        r#"{"addr":{"__extn":{"arg":"1.0","fn":"decimal"}},"level":1}"#,
        Entity("User", "u"),
    ),
    (
        ATTRS,
        r#"{"friends":[{"__entity":{"id":"u","type":"User"}}],"level":1}"#,
        Nothing,
    ),
    (
        ATTRS,
        r#"{"friends":[{"__entity":{"id":"t","type":"Team"}},{"__entity":{"id":"u","type":"User"}}],"level":1}"#,
        Entity("User", "u"),
    ),
    (
        ATTRS,
        r#"{"friends":[{"__entity":{"id":"u","type":"User"}},{"__entity":{"id":"v","type":"User"}}],"level":1}"#,
        Missing("User", "v"),
    ),
    (
        DOC,
        r#"{"attrs":{"level":1},"parents":[],"tags":{},"uid":{"id":"d","type":"Doc"}},"#,
        Entity("Doc", "d"),
    ),
    // tags
    (
        USER_END,
        r#""tags":{"t":"al"},"uid":{"id":"u","type":"User"}}],"request":{"action":{"id":"view""#,
        Nothing,
    ),
    (
        USER_END,
        r#""tags":{"t":1},"uid":{"id":"u","type":"User"}}],"request":{"action":{"id":"view""#,
        Entity("User", "u"),
    ),
    (
        DOC,
        r#"{"attrs":{},"parents":[],"tags":{"t":"al"},"uid":{"id":"d","type":"Doc"}},"#,
        Entity("Doc", "d"),
    ),
    // two entities at once
    (
        TEAM_AND_ATTRS,
        r#""tags":{"t":"al"},"uid":{"id":"t","type":"Team"}},{"attrs":{}"#,
        Entity("Team", "t"),
    ),
    // one more entity: a team in none, in another, in a document, in itself, and in one that isn't stored
    (
        TEAM,
        r#"{"attrs":{},"parents":[],"tags":{},"uid":{"id":"t","type":"Team"}},{"attrs":{},"parents":[],"tags":{},"uid":{"id":"s","type":"Team"}},"#,
        Nothing,
    ),
    (
        TEAM,
        r#"{"attrs":{},"parents":[],"tags":{},"uid":{"id":"t","type":"Team"}},{"attrs":{},"parents":[{"id":"t","type":"Team"}],"tags":{},"uid":{"id":"s","type":"Team"}},"#,
        Nothing,
    ),
    (
        TEAM,
        r#"{"attrs":{},"parents":[],"tags":{},"uid":{"id":"t","type":"Team"}},{"attrs":{},"parents":[{"id":"d","type":"Doc"}],"tags":{},"uid":{"id":"s","type":"Team"}},"#,
        Entity("Team", "s"),
    ),
    (
        TEAM,
        r#"{"attrs":{},"parents":[],"tags":{},"uid":{"id":"t","type":"Team"}},{"attrs":{},"parents":[{"id":"s","type":"Team"}],"tags":{},"uid":{"id":"s","type":"Team"}},"#,
        Entity("Team", "s"),
    ),
    (
        TEAM,
        r#"{"attrs":{},"parents":[],"tags":{},"uid":{"id":"t","type":"Team"}},{"attrs":{},"parents":[{"id":"x","type":"Team"}],"tags":{},"uid":{"id":"s","type":"Team"}},"#,
        Missing("Team", "x"),
    ),
    // an ancestor's ancestor is left out: the user is in the team, and not in what the team is in
    (
        TEAM,
        r#"{"attrs":{},"parents":[{"id":"s","type":"Team"}],"tags":{},"uid":{"id":"t","type":"Team"}},{"attrs":{},"parents":[],"tags":{},"uid":{"id":"s","type":"Team"}},"#,
        Entity("User", "u"),
    ),
    // an entity of a type that isn't declared, and one that isn't stored
    (
        DOC,
        r#"{"attrs":{},"parents":[],"tags":{},"uid":{"id":"p","type":"Page"}},"#,
        Entity("Page", "p"),
    ),
    (DOC, "", Missing("Doc", "d")),
    // actions: one that isn't declared, with an attribute, without its ancestor, and not stored
    (
        DOC,
        r#"{"attrs":{},"parents":[],"tags":{},"uid":{"id":"edit","type":"Action"}},"#,
        Entity("Action", "edit"),
    ),
    (
        VIEW,
        r#"{"attrs":{"level":1},"parents":[],"tags":{},"uid":{"id":"view","type":"Action"}},"#,
        Entity("Action", "view"),
    ),
    (
        DOC_AND_BUY,
        r#"{"attrs":{},"parents":[],"tags":{},"uid":{"id":"buy","type":"Shop::Action"}},"#,
        Entity("Shop::Action", "buy"),
    ),
    (VIEW, "", Missing("Action", "view")),
    (DOC_AND_BUY, DOC, Missing("Shop::Action", "buy")),
    // two that aren't stored
    (DOC_AND_BUY, "", Missing("Doc", "d")),
];

/// Uids that a policy writes, what stands in the place of the document, and what is told then.
pub(crate) const WRITTEN: &[(&str, &str, &str, Told)] = &[
    ("Team", "t", DOC, Nothing),
    ("Team", "x", DOC, Missing("Team", "x")),
    ("Team", "x", "", Missing("Doc", "d")),
    ("Action", "edit", "", Missing("Action", "edit")),
];

/// The schema, if its text is read.
pub(crate) fn schema(alloc: Global) -> Option<Schema> {
    read_schema(alloc, SCHEMA.as_bytes()).ok()
}

/// The world with another text in the place of a part of its text, if that is read.
pub(crate) fn changed_world(alloc: Global, part: &str, other: &str) -> Option<World> {
    match WORLD.replace(alloc, part, other) {
        Ok(text) => read_world(alloc, text.as_bytes()).ok(),
        Err(_) => None,
    }
}

pub(crate) fn uid(alloc: Global, type_name: &str, id: &str) -> Result<Uid, AllocError> {
    Ok(Uid {
        type_name: Name::from_text(Text::from_str(alloc, type_name)?),
        id: Text::from_str(alloc, id)?,
    })
}

/// The one uid that a policy writes.
pub(crate) fn literal(alloc: Global, type_name: &str, id: &str) -> Option<Lits> {
    match uid(alloc, type_name, id) {
        Ok(uid) => lits_of(alloc, &[uid]).ok(),
        Err(_) => None,
    }
}
