//! Lines as clients write them, and what they are answered.

use conversing::{
    Answer, Call, Desk, LaneEnd, MAX_LINE, Outcome, RequestFault, Source, Station, attend,
    fault_line, lost_line, read_request, reply_line,
};
use std::alloc::{AllocError, Global};
use std::test::Fail;

/// A desk that answers each request with a height.
#[derive(Drop)]
struct HeightDesk {
    alloc: Global,
}

impl Desk for HeightDesk {
    ghost use Rattle.std.specs.Prelude.{⊤};

    ghost answers = { λ _ _ _ _. ⊤ };

    fn answer(&mut self, line: &[u8]) -> Result<Vec<u8>, AllocError> {
        match read_request(self.alloc, line) {
            Ok(request) => reply_line(
                self.alloc,
                &request.id,
                &Outcome::Height(9_007_199_254_740_993),
            ),
            Err(fault) => fault_line(self.alloc, &fault),
        }
    }
}

/// A source that has one line for the follower of number 1.
#[derive(Drop)]
struct OneLine {
    alloc: Global,
    has_come: bool,
    is_told: bool,
}

impl Source for OneLine {
    ghost use Rattle.std.specs.Prelude.{⊤, ◌&&◌, ◌==◌, not};

    ghost has_news = { λ s number. s.has_come && not s.is_told && (number == 1) };

    ghost tells = { λ _ _ _ _. ⊤ };

    ghost takes = { λ _ _ _ _. ⊤ };

    fn told(&mut self, number: u64) -> Result<Option<Vec<u8>>, AllocError> {
        if number != 1 || self.is_told || !self.has_come {
            return Ok(None);
        }
        let line = Vec::from_slice(self.alloc, b"news\n")?;
        self.is_told = true;
        Ok(Some(line))
    }

    fn arrive(&mut self, _bytes: &[u8]) -> Result<Vec<u8>, AllocError> {
        let reply = Vec::from_slice(self.alloc, b"kept\n")?;
        self.has_come = true;
        Ok(reply)
    }
}

#[test]
fn request_is_read(rt: HostRuntime) -> Result<(), Fail> {
    let mut line = Vec::from_slice(
        rt.alloc(),
        b"{\"jsonrpc\": \"2.0\", \"method\": \"forge\", ",
    )?;
    line.extend_from_slice(
        b"\"params\": {\"slot\": \"18446744073709551615\"}, \"id\": \"a\\n\"}\n",
    )?;
    let request = read_request(rt.alloc(), &line)?;
    assert!(rt; matches!(request.call, Call::Forge(18_446_744_073_709_551_615)));
    let id = request.id.ok_or("no id")?;
    assert_eq!(rt; id.as_bytes(), b"\"a\\n\"".as_slice());
    Ok(())
}

#[test]
fn hash_of_63_digits_is_refused(rt: HostRuntime) -> Result<(), Fail> {
    let mut line = Vec::from_slice(
        rt.alloc(),
        b"{\"jsonrpc\":\"2.0\",\"method\":\"why\",\"id\":1,",
    )?;
    line.extend_from_slice(b"\"params\":{\"hash\":\"")?;
    line.resize(line.len() + 63, b'0')?;
    line.extend_from_slice(b"\"}}")?;
    let read = read_request(rt.alloc(), &line);
    assert!(rt; matches!(read, Err(RequestFault::InvalidParams { .. })));
    Ok(())
}

#[test]
fn lane_is_attended(rt: HostRuntime) -> Result<(), Fail> {
    let alloc = rt.alloc();
    let mut text = Vec::new(alloc);
    text.extend_from_slice(b"{\"jsonrpc\":\"2.0\",\"method\":\"queryHeight\",\"id\":7}\n")?;
    text.extend_from_slice(b"{\"jsonrpc\":\"2.0\",\"method\":\"queryHeight\"}\n")?;
    text.resize(text.len() + MAX_LINE, b' ')?;
    text.extend_from_slice(b"\n{\"jsonrpc\":\"2.0\",\"method\":\"dance\",\"id\":null}")?;
    let mut reader = text.as_slice();
    let mut out = Vec::new(alloc);
    let ended = attend(alloc, &mut HeightDesk { alloc }, &mut reader, &mut out);
    assert!(rt; ended.is_ok());
    let mut wanted = Vec::new(alloc);
    wanted.extend_from_slice(b"{\"jsonrpc\":\"2.0\",\"result\":\"9007199254740993\",\"id\":7}\n")?;
    wanted.extend_from_slice(
        b"{\"jsonrpc\":\"2.0\",\"error\":{\"code\":-32000,\"message\":\"line too long\"},",
    )?;
    wanted.extend_from_slice(b"\"id\":null}\n{\"jsonrpc\":\"2.0\",\"error\":{\"code\":-32601,")?;
    wanted.extend_from_slice(b"\"message\":\"Method not found\"},\"id\":null}\n")?;
    assert_eq!(rt; out.as_slice(), wanted.as_slice());
    Ok(())
}

#[test]
fn waiting_follower_is_told(rt: HostRuntime) -> Result<(), Fail> {
    let alloc = rt.alloc();
    let source = OneLine {
        alloc,
        has_come: false,
        is_told: false,
    };
    let mut station = Station::new(alloc, source, 2)?;
    assert_eq!(rt; station.waits.len(), 2);
    assert!(rt; matches!(station.next(1)?, Answer::Later));
    let arrived = station.arrive(b"block")?;
    assert_eq!(rt; arrived.reply.as_slice(), b"kept\n".as_slice());
    assert_eq!(rt; arrived.notices.len(), 1);
    assert_eq!(rt; arrived.notices[0].place, 1);
    Ok(())
}

/// The reply of the id 1 with this outcome.
fn told(alloc: Global, outcome: &Outcome<'_>) -> Result<Vec<u8>, Fail> {
    let line = b"{\"jsonrpc\":\"2.0\",\"method\":\"nextBlock\",\"id\":1}";
    let request = read_request(alloc, line.as_slice())?;
    Ok(reply_line(alloc, &request.id, outcome)?)
}

#[test]
fn no_follower_is_free(rt: HostRuntime) -> Result<(), Fail> {
    let line = told(rt.alloc(), &Outcome::NoFollower)?;
    assert_eq!(rt;
        line.as_slice(),
        b"{\"jsonrpc\":\"2.0\",\"error\":{\"code\":1001,\"message\":\"too many followers\"},\"id\":1}\n".as_slice()
    );
    Ok(())
}

#[test]
fn flush_fails(rt: HostRuntime) -> Result<(), Fail> {
    let line = told(rt.alloc(), &Outcome::NotFlushed)?;
    assert_eq!(rt;
        line.as_slice(),
        b"{\"jsonrpc\":\"2.0\",\"error\":{\"code\":5000,\"message\":\"flush failed\"},\"id\":1}\n".as_slice()
    );
    Ok(())
}

#[test]
fn node_ends(rt: HostRuntime) -> Result<(), Fail> {
    let line = told(rt.alloc(), &Outcome::Ending)?;
    assert_eq!(rt;
        line.as_slice(),
        b"{\"jsonrpc\":\"2.0\",\"error\":{\"code\":6000,\"message\":\"the node is stopping\"},\"id\":1}\n".as_slice()
    );
    Ok(())
}

#[test]
fn call_is_lost(rt: HostRuntime) -> Result<(), Fail> {
    let alloc = rt.alloc();
    let asks = b"{\"jsonrpc\":\"2.0\",\"method\":\"flush\",\"id\":\"a\"}";
    let line = lost_line(alloc, &read_request(alloc, asks.as_slice())?.id)?;
    assert_eq!(rt;
        line.as_slice(),
        b"{\"jsonrpc\":\"2.0\",\"error\":{\"code\":-32603,\"message\":\"Internal error\"},\"id\":\"a\"}\n".as_slice()
    );
    let notifies = b"{\"jsonrpc\":\"2.0\",\"method\":\"flush\"}";
    let none = lost_line(alloc, &read_request(alloc, notifies.as_slice())?.id)?;
    assert_eq!(rt; none.as_slice(), b"".as_slice());
    Ok(())
}
