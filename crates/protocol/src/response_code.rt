// The response code: a number on the wire, of which nineteen have names (004 "Response Codes").
ghost use Rattle.std.specs.Prelude.{◌≡◌};
ghost use Rattle.protocol.specs.ResponseCodes.{code_of, named_codes};

#[derive(Clone, Copy, Debug, PartialEq, Eq)]
pub struct ResponseCode {
    pub number: u16,
}

impl ResponseCode {
    pub const OK: ResponseCode = ResponseCode { number: 0x01 };

    pub const STREAM_DOES_NOT_EXIST: ResponseCode = ResponseCode { number: 0x02 };

    pub const SUBSCRIPTION_ID_ALREADY_EXISTS: ResponseCode = ResponseCode { number: 0x03 };

    pub const SUBSCRIPTION_ID_DOES_NOT_EXIST: ResponseCode = ResponseCode { number: 0x04 };

    pub const STREAM_ALREADY_EXISTS: ResponseCode = ResponseCode { number: 0x05 };

    pub const STREAM_NOT_AVAILABLE: ResponseCode = ResponseCode { number: 0x06 };

    pub const SASL_MECHANISM_NOT_SUPPORTED: ResponseCode = ResponseCode { number: 0x07 };

    pub const AUTHENTICATION_FAILURE: ResponseCode = ResponseCode { number: 0x08 };

    pub const SASL_ERROR: ResponseCode = ResponseCode { number: 0x09 };

    pub const SASL_CHALLENGE: ResponseCode = ResponseCode { number: 0x0a };

    pub const SASL_AUTHENTICATION_FAILURE_LOOPBACK: ResponseCode = ResponseCode { number: 0x0b };

    pub const VIRTUAL_HOST_ACCESS_FAILURE: ResponseCode = ResponseCode { number: 0x0c };

    pub const UNKNOWN_FRAME: ResponseCode = ResponseCode { number: 0x0d };

    pub const FRAME_TOO_LARGE: ResponseCode = ResponseCode { number: 0x0e };

    pub const INTERNAL_ERROR: ResponseCode = ResponseCode { number: 0x0f };

    pub const ACCESS_REFUSED: ResponseCode = ResponseCode { number: 0x10 };

    pub const PRECONDITION_FAILED: ResponseCode = ResponseCode { number: 0x11 };

    pub const PUBLISHER_DOES_NOT_EXIST: ResponseCode = ResponseCode { number: 0x12 };

    pub const NO_OFFSET: ResponseCode = ResponseCode { number: 0x13 };

    // The codes that have a name, in the order of their numbers.
    pub fn named() -> [ResponseCode; 19]
        ensures { result ≡ named_codes }
    {
        [
            ResponseCode::OK,
            ResponseCode::STREAM_DOES_NOT_EXIST,
            ResponseCode::SUBSCRIPTION_ID_ALREADY_EXISTS,
            ResponseCode::SUBSCRIPTION_ID_DOES_NOT_EXIST,
            ResponseCode::STREAM_ALREADY_EXISTS,
            ResponseCode::STREAM_NOT_AVAILABLE,
            ResponseCode::SASL_MECHANISM_NOT_SUPPORTED,
            ResponseCode::AUTHENTICATION_FAILURE,
            ResponseCode::SASL_ERROR,
            ResponseCode::SASL_CHALLENGE,
            ResponseCode::SASL_AUTHENTICATION_FAILURE_LOOPBACK,
            ResponseCode::VIRTUAL_HOST_ACCESS_FAILURE,
            ResponseCode::UNKNOWN_FRAME,
            ResponseCode::FRAME_TOO_LARGE,
            ResponseCode::INTERNAL_ERROR,
            ResponseCode::ACCESS_REFUSED,
            ResponseCode::PRECONDITION_FAILED,
            ResponseCode::PUBLISHER_DOES_NOT_EXIST,
            ResponseCode::NO_OFFSET,
        ]
    }
}

// Any code is read as its number.
impl From<u16> for ResponseCode {
    ghost from_gives = { λ number code. code ≡ code_of number };

    fn from(number: u16) -> ResponseCode {
        ResponseCode { number }
    }
}
