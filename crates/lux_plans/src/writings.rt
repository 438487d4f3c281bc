// What a command has before it writes.
use lux_answers::Answer;
use std::marker::Model;

/// The answer of a success, and the bytes for the output. Contracts see the bytes as a list.
#[derive(Drop)]
pub struct Writing {
    pub answer: Answer,
    pub bytes: Vec<u8>,
}

impl Model for Writing {
    ghost use Rattle.lux_plans.specs.Writings.{Writing};

    ghost Value = { Writing };

    ghost view = { λ w. record { answer = w.answer; bytes = w.bytes.items } };
}
