//! The text of each form.
ghost use Rattle.std.specs.Prelude.{◌≡◌};
ghost use Rattle.sc_smtlib_forms.specs.Forms.{template};

use crate::form::Form;

/// The text of a form, with `W`, `X` and `Y` where something is to be put.
pub(crate) fn template(form: Form) -> &'static str
    ensures { result.now ≡ template form }
{
    match form {
        Form::Logic => "(set-logic ALL)",
        Form::LongSort => "(define-sort Long () (_ BitVec 64))",
        Form::DecimalSort => "(define-sort Decimal () (_ BitVec 64))",
        Form::EntityData => "(declare-datatypes ((W 0)) (((|Y X| (W.id String)))))",
        Form::RecordData => "(declare-datatypes ((W 0)) (((W.mkX))))",
        Form::FieldData => " (|W X| Y)",
        Form::OptionData => "(declare-datatypes ((W 0)) (((W.none) (W.some (W.the X)))))",
        Form::AddressData =>
            "(declare-datatypes ((Ip 0)) (((Ip.mk (Ip.v6 Bool) (Ip.pfx (_ BitVec 128)) (Ip.addr (_ BitVec 128))))))",
        Form::Choices => "(define-fun W.choices () (Set String) X)",
        Form::Constant => "(declare-const W X)",
        Form::Function => "(declare-fun W (X) Y)",
        Form::TagFunction => "(declare-fun W (X String) Y)",
        Form::Definition => "(define-fun W () X Y)",
        Form::Assertion => "(assert W)",
        Form::Implication => "(=> W X)",
        Form::Check => "(check-sat)",
        Form::Open => "type",
        Form::Listed => "enum",
        Form::Bool => "Bool",
        Form::Long => "Long",
        Form::String => "String",
        Form::Decimal => "Decimal",
        Form::Ip => "Ip",
        Form::SetSort => "(Set W)",
        Form::EntityName => "EW",
        Form::RecordName => "RW",
        Form::OptionName => "OW",
        Form::AttributesName => "attrsW",
        Form::AncestorsName => "ancW.X",
        Form::KeysName => "keysW",
        Form::TagName => "tagW",
        Form::TermName => "tW",
        Form::True => "true",
        Form::False => "false",
        Form::Number64 => "(_ bvW 64)",
        Form::Number128 => "(_ bvW 128)",
        Form::Address => "(Ip.mk W X Y)",
        Form::Text => "\"W\"",
        Form::Uid => "(|W X| \"Y\")",
        Form::None => "W.none",
        Form::Principal => "principal",
        Form::Resource => "resource",
        Form::Context => "context",
        Form::Not => "(not W)",
        Form::And => "(and W X)",
        Form::Or => "(or W X)",
        Form::Choice => "(ite W X Y)",
        Form::Equal => "(= W X)",
        Form::Add => "(bvadd W X)",
        Form::Subtract => "(bvsub W X)",
        Form::Multiply => "(bvmul W X)",
        Form::AddOverflows =>
            "(not (= ((_ sign_extend 1) (bvadd W X)) (bvadd ((_ sign_extend 1) W) ((_ sign_extend 1) X))))",
        Form::SubtractOverflows =>
            "(not (= ((_ sign_extend 1) (bvsub W X)) (bvsub ((_ sign_extend 1) W) ((_ sign_extend 1) X))))",
        Form::MultiplyOverflows =>
            "(not (= ((_ sign_extend 64) (bvmul W X)) (bvmul ((_ sign_extend 64) W) ((_ sign_extend 64) X))))",
        Form::Less => "(bvslt W X)",
        Form::IsVersion6 => "(Ip.v6 W)",
        Form::InRange =>
            "(and (= (Ip.v6 W) (Ip.v6 X)) (= (bvand (Ip.pfx W) (Ip.pfx X)) (Ip.pfx X)) (= (bvand (Ip.addr W) (Ip.pfx X)) (bvand (Ip.addr X) (Ip.pfx X))))",
        Form::Call => "(W X)",
        Form::TagCall => "(W X Y)",
        Form::Field => "(|W X| Y)",
        Form::EmptyRecord => "W.mk",
        Form::Record => "(W.mkX)",
        Form::EmptySet => "(as set.empty W)",
        Form::Singleton => "(set.singleton W)",
        Form::Union => "(set.union (set.singleton W) X)",
        Form::UnionWith => "(set.union (set.singleton W) ",
        Form::UnionEnd => ")",
        Form::IsPresent => "((_ is W.some) X)",
        Form::Held => "(ite ((_ is W.some) X) (W.the X) Y)",
        Form::Member => "(set.member W X)",
        Form::Subset => "(set.subset W X)",
        Form::Common => "(not (= (set.inter W X) (as set.empty Y)))",
        Form::Like => "(str.in_re W X)",
        Form::Characters => "(str.to_re \"W\")",
        Form::AnyText => "(re.* re.allchar)",
        Form::Sequence => "(re.++W)",
    }
}
