use crate::instr::Instr;
use c11_num::CType;
use std::marker::Model;

/// Where the code of a function begins, and what a call of it makes.
#[derive(Debug, Drop)]
pub struct Start {
    /// The place of its first instruction.
    pub place: usize,
    /// The types of its parameters, which take its first places.
    pub params: Vec<CType>,
    /// How many places its locals and parameters take.
    pub places: u32,
    /// The type of what it answers; none stands for `void`.
    pub answers: Option<CType>,
}

impl Model for Start {
    ghost use Rattle.c11_flat.specs.Code as spec;

    ghost Value = { spec.Start };

    ghost view = { λ s. record { place = s.place; params = s.params.items; places = s.places; answers = s.answers } };
}

/// The flat code of a program. Contracts see its instructions and the starts of its functions, in the order of their numbers.
#[derive(Debug, Drop)]
pub struct Code {
    pub instrs: Vec<Instr>,
    pub starts: Vec<Start>,
}

impl Model for Code {
    ghost use Rattle.c11_flat.specs.Code.{Whole};

    ghost Value = { Whole };

    ghost view = { λ c. record { instrs = c.instrs.items; starts = c.starts.items } };
}
