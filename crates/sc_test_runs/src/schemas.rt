//! The schemas of runs. In most of them users view documents.

/// The context has one truth value.
pub const TRUTH: &str =
    r#"{"":{"entityTypes":{"User":{},"Doc":{}},"actions":{"view":{"appliesTo":{"principalTypes":["User"],"resourceTypes":["Doc"],"context":{"type":"Record","attributes":{"mfa":{"type":"Boolean"}}}}}}}}"#;

/// Groups may be in groups; users may be in groups, and have a boss, an age and perhaps a nickname; documents have an
/// owner. The context has a number, two sets of truth values, a set of numbers, a text and an address.
pub const FULL: &str =
    r#"{"":{"entityTypes":{"Group":{"memberOfTypes":["Group"]},"User":{"memberOfTypes":["Group"],"shape":{"type":"Record","attributes":{"boss":{"type":"Entity","name":"User"},"age":{"type":"Long"},"nick":{"type":"String","required":false}}}},"Doc":{"shape":{"type":"Record","attributes":{"owner":{"type":"Entity","name":"User"}}}}},"actions":{"view":{"appliesTo":{"principalTypes":["User"],"resourceTypes":["Doc"],"context":{"type":"Record","attributes":{"n":{"type":"Long"},"s":{"type":"Set","element":{"type":"Boolean"}},"t":{"type":"Set","element":{"type":"Boolean"}},"q":{"type":"Set","element":{"type":"Long"}},"name":{"type":"String"},"addr":{"type":"Extension","name":"ipaddr"}}}}}}}}"#;

/// The same without ages, and with a text alone in the context.
pub const NAMED: &str =
    r#"{"":{"entityTypes":{"Group":{"memberOfTypes":["Group"]},"User":{"memberOfTypes":["Group"],"shape":{"type":"Record","attributes":{"boss":{"type":"Entity","name":"User"},"nick":{"type":"String","required":false}}}},"Doc":{"shape":{"type":"Record","attributes":{"owner":{"type":"Entity","name":"User"}}}}},"actions":{"view":{"appliesTo":{"principalTypes":["User"],"resourceTypes":["Doc"],"context":{"type":"Record","attributes":{"name":{"type":"String"}}}}}}}}"#;

/// As the full one, and documents have tags, which are texts.
pub const TAGGED: &str =
    r#"{"":{"entityTypes":{"Group":{"memberOfTypes":["Group"]},"User":{"memberOfTypes":["Group"],"shape":{"type":"Record","attributes":{"boss":{"type":"Entity","name":"User"},"age":{"type":"Long"},"nick":{"type":"String","required":false}}}},"Doc":{"tags":{"type":"String"},"shape":{"type":"Record","attributes":{"owner":{"type":"Entity","name":"User"}}}}},"actions":{"view":{"appliesTo":{"principalTypes":["User"],"resourceTypes":["Doc"],"context":{"type":"Record","attributes":{"n":{"type":"Long"},"s":{"type":"Set","element":{"type":"Boolean"}},"t":{"type":"Set","element":{"type":"Boolean"}},"q":{"type":"Set","element":{"type":"Long"}},"name":{"type":"String"},"addr":{"type":"Extension","name":"ipaddr"}}}}}}}}"#;

/// The context has two decimal numbers.
pub const PRICED: &str =
    r#"{"":{"entityTypes":{"User":{},"Doc":{}},"actions":{"view":{"appliesTo":{"principalTypes":["User"],"resourceTypes":["Doc"],"context":{"type":"Record","attributes":{"price":{"type":"Extension","name":"decimal"},"limit":{"type":"Extension","name":"decimal"}}}}}}}}"#;

/// The context has two truth values.
pub const TWO_TRUTHS: &str =
    r#"{"":{"entityTypes":{"User":{},"Doc":{}},"actions":{"view":{"appliesTo":{"principalTypes":["User"],"resourceTypes":["Doc"],"context":{"type":"Record","attributes":{"x":{"type":"Boolean"},"y":{"type":"Boolean"}}}}}}}}"#;

/// Users and documents view documents.
pub const TWO_TYPES: &str =
    r#"{"":{"entityTypes":{"User":{},"Doc":{}},"actions":{"view":{"appliesTo":{"principalTypes":["User","Doc"],"resourceTypes":["Doc"],"context":{"type":"Record","attributes":{"mfa":{"type":"Boolean"}}}}}}}}"#;

/// Users view and edit documents.
pub const TWO_ACTIONS: &str =
    r#"{"":{"entityTypes":{"User":{},"Doc":{}},"actions":{"view":{"appliesTo":{"principalTypes":["User"],"resourceTypes":["Doc"],"context":{"type":"Record","attributes":{"mfa":{"type":"Boolean"}}}}},"edit":{"appliesTo":{"principalTypes":["User"],"resourceTypes":["Doc"],"context":{"type":"Record","attributes":{"mfa":{"type":"Boolean"}}}}}}}}"#;

/// The context has two truth values, and its attributes stand in another order.
pub const TWO_ATTRIBUTES: &str =
    r#"{"":{"actions":{"a b":{"appliesTo":{"context":{"attributes":{"mfa":{"type":"Boolean"},"age":{"type":"Boolean"}},"type":"Record"},"resourceTypes":["A"],"principalTypes":["B"]}}},"entityTypes":{"B":{},"A":{},"C":{}}}}"#;

/// Each user has a boss and may be in users, and to view is one of all actions.
pub const BOSSES: &str =
    r#"{"":{"entityTypes":{"User":{"memberOfTypes":["User"],"shape":{"type":"Record","attributes":{"boss":{"type":"Entity","name":"User"},"nick":{"type":"String","required":false}}}},"Doc":{}},"actions":{"view":{"memberOf":[{"id":"all"}],"appliesTo":{"principalTypes":["User"],"resourceTypes":["Doc"],"context":{"type":"Record","attributes":{"mfa":{"type":"Boolean"}}}}},"all":{}}}}"#;

/// Users with tags, who may be in groups, view groups.
pub const VIEWED_GROUPS: &str =
    r#"{"":{"entityTypes":{"Group":{},"User":{"memberOfTypes":["Group"],"shape":{"type":"Record","attributes":{"vip":{"type":"Boolean"}}},"tags":{"type":"String"}}},"actions":{"view":{"appliesTo":{"principalTypes":["User"],"resourceTypes":["Group"]}}}}}"#;

/// The one action applies to nothing.
pub const NO_TYPES: &str = r#"{"":{"entityTypes":{"User":{},"Doc":{}},"actions":{"view":{}}}}"#;
