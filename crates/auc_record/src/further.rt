//! What lines say that follows from a released vector, and what lines for sites and for sessions of EAP-SIM say.

ghost use Rattle.std.specs.Prelude.{◌≡◌, IfOk};

use crate::sites::SitesNote;
use auc_memory::NoMemory;
use auc_vector::SimNote;
use std::alloc::Global;
use std::marker::Model;

/// What became of a 5G authentication (TS 33.501 §6.1.3.2).
#[derive(Clone, Copy)]
pub enum FivegOutcome {
    /// The separation bit of AMF is clear, so the vector is none of 5G (TS 33.501 §6.1.3.2).
    NoSeparation,
    /// The serving network refused RES*: its HRES* isn't HXRES*.
    ServingRefused,
    /// The home network refused RES*: it isn't XRES*.
    HomeRefused,
    /// Both networks accepted RES*, with K_SEAF of the home network and of the device.
    Confirmed { home: [u8; 32], device: [u8; 32] },
}

/// What a line says that follows from a released vector, or what a line for sites or for a session of EAP-SIM says.
#[derive(Drop)]
pub enum Further {
    /// K_ASME of the vector for the line's serving network (TS 33.401 Annex A.2).
    Kasme([u8; 32]),
    /// HXRES* of the vector for the line's serving network (TS 33.501 Annex A.5).
    HxresStar([u8; 16]),
    /// What became of the subscriber's 5G authentication with the vector.
    Fiveg { sub: u32, outcome: FivegOutcome },
    /// What happened in an event of the subscriber's sites.
    Sites { sub: u32, note: SitesNote },
    /// What happened in the subscriber's session of EAP-SIM.
    Sim { sub: u32, note: SimNote },
}

impl Further {
    ghost use Rattle.std.specs.Prelude.{◌≡◌};
    ghost use Rattle.auc_record.specs.Record.{further_subscriber};

    /// The subscriber whom it names, by its place, if it names one.
    pub fn subscriber(&self) -> Option<u32>
        ensures { result ≡ further_subscriber self.now }
    {
        match *self {
            Further::Kasme(_) | Further::HxresStar(_) => None,
            Further::Fiveg { sub, .. } | Further::Sites { sub, .. } | Further::Sim { sub, .. } =>
                Some(sub),
        }
    }
}

/// The same in memory of its own, so that other records stay small. Contracts see what is said.
#[derive(Drop)]
pub struct BoxedFurther {
    inner: Box<Further>,
}

impl Model for BoxedFurther {
    ghost use Rattle.auc_record.specs.declared.further.Further.{Further};

    ghost Value = { Further };

    ghost view = { λ f. f.inner.value };
}

impl BoxedFurther {
    /// Keeps what is said.
    pub fn new(alloc: Global, further: Further) -> Result<BoxedFurther, NoMemory>
        ensures { IfOk result (λ kept. kept ≡ further) }
    {
        Ok(BoxedFurther {
            inner: Box::new(alloc, further)?,
        })
    }

    /// What is said.
    pub fn said(&self) -> &Further
        ensures { result.now ≡ self.now }
    {
        &self.inner
    }
}
