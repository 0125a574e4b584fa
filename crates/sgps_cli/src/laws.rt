//! Laws of whole plays: any bytes are played in exactly one way, and more bytes only extend a play.

pub use sg_play::laws::{one_play, play_extends, some_play};
