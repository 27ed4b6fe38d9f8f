// What follows of a session in which both drives took turns: its answers, and the map that is left, are those of the operations run directly.

pub mod laws;
