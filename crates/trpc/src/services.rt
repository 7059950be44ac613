// The services of a record: its first byte. 2, Report, is never accepted and never sent.
ghost use Rattle.std.specs.Prelude.{◌≡◌};
ghost use Rattle.trpc.specs.Services.{is_update, accepted, service_of_reply};

// The services by their numbers. They are no enum: a content may start with any byte, and each definition says what it is to do.
const UPDATE: u8 = 0;

const REQUEST: u8 = 1;

pub(crate) const RESPONSE_UPDATE: u8 = 3;

const RESPONSE_REQUEST: u8 = 4;

// Whether the service is Update.
pub(crate) fn is_update(service: u8) -> bool
    ensures { result ≡ is_update service }
{
    service == UPDATE
}

// Whether a record may bring the service.
#[tactic(auto, unfolding(crate::specs::Services::accepted))]
pub(crate) fn accepted(service: u8) -> bool
    ensures { result ≡ accepted service }
{
    matches!(service, UPDATE | REQUEST)
}

// The service of the reply to an accepted one.
#[tactic(auto, unfolding(crate::specs::Services::service_of_reply))]
pub(crate) fn service_of_reply(service: u8) -> u8
    ensures { result ≡ service_of_reply service }
{
    if is_update(service) {
        RESPONSE_UPDATE
    } else {
        RESPONSE_REQUEST
    }
}
