//! Kinds of lines.

use crate::events::Events;
use crate::servers::Servers;
use ccr_rows::{Kind, Telling, played};
use std::io;

/// The kinds that this program plays.
#[derive(Clone, Copy)]
pub(crate) enum LineKind {
    Events,
    Servers,
}

impl Kind for LineKind {
    fn of_name(name: &str) -> Option<LineKind> {
        match name {
            "events" => Some(LineKind::Events),
            "servers" => Some(LineKind::Servers),
            _ => None,
        }
    }

    fn play(self, rt: &HostRuntime, lines: &str, telling: Telling) -> io::Result<String> {
        match self {
            LineKind::Events => played(rt, Events::new(), lines, telling),
            LineKind::Servers => played(rt, Servers::new(rt.alloc())?, lines, telling),
        }
    }
}
