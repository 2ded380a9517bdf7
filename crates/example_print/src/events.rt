//! An enum whose names are as long as those of programs are.
ghost use Rattle.std.specs.Prelude.{[], ◌∷◌};
ghost use Rattle.ufmt.specs.ValueDocuments.{integer, named, named_struct, named_tuple, number, option_document};
ghost use Rattle.example_print.specs.declared.events.LinkEvent.TheVariants.{DisconnectedByOtherSide, ReceivedAcknowledgement, ReconfiguredAfterPowerLoss};

use ufmt::{Formatter, fields, uDebug, uWrite};

/// What happened on a link.
#[derive(Drop)]
pub enum LinkEvent {
    DisconnectedByOtherSide,
    ReceivedAcknowledgement(u16, Option<u8>),
    ReconfiguredAfterPowerLoss {
        temperature_in_celsius: i16,
        time_without_connection: u32,
    },
}

impl uDebug for LinkEvent {
    ghost document = { elim [
      | DisconnectedByOtherSide ↦ named "DisconnectedByOtherSide"
      | ReceivedAcknowledgement packet retries ↦ named_tuple "ReceivedAcknowledgement"
          (number packet ∷ option_document number retries ∷ [])
      | ReconfiguredAfterPowerLoss celsius time ↦ named_struct "ReconfiguredAfterPowerLoss"
          (("temperature_in_celsius", integer celsius) ∷ ("time_without_connection", number time) ∷ [])
    ] };

    fn fmt<W: uWrite>(&self, f: &mut Formatter<W>) -> Result<(), W::Error> {
        match self {
            LinkEvent::DisconnectedByOtherSide => fields!(f, DisconnectedByOtherSide),
            LinkEvent::ReceivedAcknowledgement(packet, retries) => {
                fields!(f, ReceivedAcknowledgement(packet, retries))
            }
            LinkEvent::ReconfiguredAfterPowerLoss {
                temperature_in_celsius,
                time_without_connection,
            } => fields!(
                f,
                ReconfiguredAfterPowerLoss {
                    temperature_in_celsius,
                    time_without_connection
                }
            ),
        }
    }
}
