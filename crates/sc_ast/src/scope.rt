//! The scope of a policy: which principals, actions and resources it speaks of.
use crate::expr::TypeName;
use crate::literal::EntityLiteral;
use crate::place::Place;
use sc_lists::Seq;

/// What a scope asks of the principal or of the resource. Places are those of `==`, `is` and `in`.
#[derive(Drop)]
pub enum Constraint {
    /// Nothing.
    Any,
    /// `== E`: that it is the entity.
    Equal(Place, EntityLiteral),
    /// `in E`: that it is the entity, or in it.
    In(Place, EntityLiteral),
    /// `is T`: that it is of the type.
    Is(Place, TypeName),
    /// `is T in E`: both.
    IsIn(Place, TypeName, Place, EntityLiteral),
}

/// What a scope asks of the action. Places are those of `==`, `in` and the opening bracket.
#[derive(Drop)]
pub enum ActionConstraint {
    /// Nothing.
    Any,
    /// `== E`: that it is the action.
    Equal(Place, EntityLiteral),
    /// `in E`: that it is the action, or in it.
    In(Place, EntityLiteral),
    /// `in [E, F]`: that it is one of the actions, or in one.
    InAny(Place, Place, Seq<EntityLiteral>),
}

/// The scope's part on the principal or on the resource.
#[derive(Drop)]
pub struct Scope {
    /// The place of the word `principal` or `resource`.
    pub place: Place,
    /// What is asked.
    pub constraint: Constraint,
}

/// The scope's part on the action.
#[derive(Drop)]
pub struct ActionScope {
    /// The place of the word `action`.
    pub place: Place,
    /// What is asked.
    pub constraint: ActionConstraint,
}
