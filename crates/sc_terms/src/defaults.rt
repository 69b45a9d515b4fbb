//! The default of each sort, as a term.
ghost use Rattle.std.specs.Prelude.{◌≡◌, ◌++◌, ◌∷◌, [], length, IfOk, OnOk, OnErr};
ghost use Rattle.sc_terms.specs.Tables.{at_numbers, AreBelow, Keeps, StandsFor};
ghost use Rattle.sc_terms.specs.Folds.{default_term, default_parts};
ghost use Rattle.sc_terms.specs.Values.{HasValue, default_val};

use crate::terms::Terms;
use sc_decimal::Decimal;
use sc_ip::Ip;
use sc_lists::{Seq, Text};
use sc_names::clone_uids;
use sc_sorts::{Leaf, Literal, ManyOp, Node, Parts, Sort, default_uid, try_clone};
use std::alloc::AllocError;

impl Terms {
    /// The default of a sort: a literal, the empty set, a record of defaults, or the absent option.
    pub fn default(&mut self, sort: &Sort) -> Result<u64, AllocError>
        ensures ok { IfOk result (λ n. StandsFor self.new n (default_term sort.now)) }
        ensures value { IfOk result (λ n. HasValue self.new n (λ w. default_val sort.now)) }
        ensures kept { Keeps self.old self.new }
        ensures err { OnErr result (self.new ≡ self.old) }
    {
        self.laws();
        let count = self.len();
        match self.default_of(sort) {
            Ok(n) => Ok(n),
            Err(refused) => {
                self.take_back(count);
                Err(refused)
            }
        }
    }

    /// Where memory runs out, parts of the default may have come in.
    #[cycle(defaults)]
    #[tactic(auto, using(crate::proofs::DefaultLaws::default_Bool, crate::proofs::DefaultLaws::default_Long, crate::proofs::DefaultLaws::default_String, crate::proofs::DefaultLaws::default_Decimal, crate::proofs::DefaultLaws::default_Ip, crate::proofs::DefaultLaws::default_Entity, crate::proofs::DefaultLaws::default_Set, crate::proofs::DefaultLaws::default_Record, crate::proofs::DefaultLaws::default_Option))]
    fn default_of(&mut self, sort: &Sort) -> Result<u64, AllocError>
        ensures ok { IfOk result (λ n. StandsFor self.new n (default_term sort.now)) }
        ensures kept { Keeps self.old self.new }
    {
        let alloc = self.allocator();
        match sort {
            Sort::Bool => self.truth(false),
            Sort::Long => self.literal(Literal::Long(0)),
            Sort::String => self.literal(Literal::String(Text::from_str(alloc, "")?)),
            Sort::Decimal => self.literal(Literal::Decimal(Decimal::from_ten_thousandths(0))),
            Sort::Ip => self.literal(Literal::Ip(Ip::V4 {
                address: 0,
                prefix: 32,
            })),
            Sort::Entity(name, choices) => self.literal(Literal::Entity(
                default_uid(alloc, name, choices)?,
                clone_uids(alloc, choices)?,
            )),
            Sort::Set(member) => {
                let member = try_clone(alloc, member.get())?;
                self.labelled_set(member, Seq::new(alloc))
            }
            Sort::Record(fields) => self.default_record(fields),
            Sort::Option(held) => {
                let held = try_clone(alloc, held.get())?;
                self.none(held)
            }
        }
    }

    #[cycle(defaults)]
    #[tactic(auto, using(crate::proofs::TableLaws::keeps_then))]
    fn default_record(&mut self, fields: &Seq<(Text, Sort)>) -> Result<u64, AllocError>
        ensures ok { IfOk result (λ n. StandsFor self.new n (default_parts fields.now)) }
        ensures kept { Keeps self.old self.new }
    {
        let alloc = self.allocator();
        let mut parts = Seq::new(alloc);
        for field in fields.as_slice() {
            self.put_default(field, &mut parts)?;
        }
        let n = self.record(parts)?;
        Ok(n)
    }

    #[cycle(defaults)]
    #[tactic(auto, using(crate::proofs::DefaultLaws::put_below))]
    fn put_default(&mut self, field: &(Text, Sort), parts: &mut Parts) -> Result<(), AllocError>
        requires { AreBelow (length self.old) parts.old }
        ensures below { OnOk result (AreBelow (length self.new) parts.new) }
        ensures more { OnOk result (at_numbers self.new parts.new ≡ at_numbers self.old parts.old
            ++ (field.now.0, default_term field.now.1) ∷ []) }
        ensures kept { Keeps self.old self.new }
    {
        let alloc = self.allocator();
        let n = self.default_of(&field.1)?;
        parts.push((field.0.try_clone(alloc)?, n))?;
        Ok(())
    }
}
