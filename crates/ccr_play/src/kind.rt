//! Kinds of lines.

use crate::builds::Builds;
use crate::histories::Histories;
use crate::pipelines::Pipelines;
use crate::problems::Problems;
use crate::programs::Programs;
use crate::steps::Steps;
use crate::stores::Stores;
use crate::versions::Versions;
use ccr_rows::{Kind, Telling, played};
use std::io;

/// The kinds that this program plays.
#[derive(Clone, Copy)]
pub(crate) enum LineKind {
    Builds,
    Histories,
    Pipelines,
    Problems,
    Programs,
    Steps,
    Stores,
    Versions,
}

impl Kind for LineKind {
    fn of_name(name: &str) -> Option<LineKind> {
        match name {
            "builds" => Some(LineKind::Builds),
            "histories" => Some(LineKind::Histories),
            "pipelines" => Some(LineKind::Pipelines),
            "problems" => Some(LineKind::Problems),
            "programs" => Some(LineKind::Programs),
            "steps" => Some(LineKind::Steps),
            "stores" => Some(LineKind::Stores),
            "versions" => Some(LineKind::Versions),
            _ => None,
        }
    }

    fn play(self, rt: &HostRuntime, lines: &str, telling: Telling) -> io::Result<String> {
        let alloc = rt.alloc();
        match self {
            LineKind::Builds => played(rt, Builds::new(), lines, telling),
            LineKind::Histories => played(rt, Histories::new(alloc), lines, telling),
            LineKind::Pipelines => played(rt, Pipelines::new(alloc), lines, telling),
            LineKind::Problems => played(rt, Problems::new(alloc), lines, telling),
            LineKind::Programs => played(rt, Programs, lines, telling),
            LineKind::Steps => played(rt, Steps, lines, telling),
            LineKind::Stores => played(rt, Stores::new(rt, None), lines, telling),
            LineKind::Versions => played(rt, Versions, lines, telling),
        }
    }
}
