//! An association whose last bytes cannot be sent.
ghost use Rattle.std.specs.Prelude.{◌≡◌};

use fixtures::vectors::REQUEST_OF_OTHER;
use fixtures::{bytes_of, title};
use log::Log;
use std::alloc::Global;
use std::io::Write;
use std::marker::Brand;
use std::net::{Net, Shutdown, TcpListener, TcpStream};
use std::sync::Wait;
use std::test::Fail;
use std::time::Clock;
use ups_assoc::Config;
use ups_ledger::Commits;
use ups_log::{Account, Tally, end_told};
use ups_manager::Manager;
use ups_net::{ServerOptions, Site, serve_one};
use ups_peers::ServerLimits;
use ups_service::SharedService;
use ups_session::{End, SessionFault};
use ups_transport::ends_of;
use ups_turn::{Desk, Pass};

/// Returns a server's connection, whose client has asked for an association with another application entity, and the
/// client. If it is cut, nothing more can be sent to the client.
fn asked_of_other<R>(rt: &R, is_cut: bool) -> Result<(TcpStream, TcpStream), Fail>
where
    R: AllocGlobal + Net<Listener = TcpListener, Stream = TcpStream>,
{
    let listener = TcpListener::bind(rt, "127.0.0.1:0")?;
    let mut client = TcpStream::connect(rt, listener.local_addr()?)?;
    let request = bytes_of(rt, REQUEST_OF_OTHER)?;
    client.write_all(&request)?;
    let (server, _) = listener.accept()?;
    if is_cut {
        server.shutdown(Shutdown::Write)?;
    }
    Ok((server, client))
}

/// Returns the options of a server without watchers that serves one association.
fn options_of(alloc: Global) -> Result<ServerOptions, Fail> {
    Ok(ServerOptions {
        alloc,
        config: Config {
            ae: title("UPSD")?,
            offset: 0,
        },
        limits: ServerLimits {
            workers: 1,
            turns: 100,
            idle: 10,
            timeout: 10,
            delivery_timeout: 10,
            waiting: 0,
            compact_at: 1_000,
        },
        associations: 1,
        rounds: 1,
        verbose: true,
        audit: true,
        watchers: Vec::new(alloc),
        from: None,
        metrics: None,
    })
}

/// Serves an association on a server's connection by a pass, and returns its end as it is reported.
fn told_by<M: SharedService<Global>, R: Wait + Clock + Log>(
    rt: &R,
    server: &TcpStream,
    account: &Account<'_>,
    desk: &Desk<M, Global>,
    pass: Pass<M, Global>,
    options: &ServerOptions,
) -> Result<End, SessionFault>
    requires here { pass.table ≡ desk.now.table }
{
    let none: Commits<Brand> = Commits::of_none();
    let site = Site {
        rt,
        desk,
        options,
        commits: &none,
    };
    let (_, ended, is_sent, _) = serve_one(site, ends_of(server, None), account, None, pass);
    end_told(ended, is_sent)
}

/// The same at a desk whose passes share `shared`.
fn told_over<M: SharedService<Global>, R: Wait + Clock + Log>(
    rt: &R,
    server: &TcpStream,
    account: &Account<'_>,
    shared: M,
    options: &ServerOptions,
) -> Result<Result<End, SessionFault>, Fail> {
    let Ok((desk, mut passes)) = Desk::open(options.alloc, shared, 1) else {
        return Err("not opened".into());
    };
    let Some(pass) = passes.pop() else {
        return Err("no pass".into());
    };
    Ok(told_by(rt, server, account, &desk, pass, options))
}

/// The same with a new manager.
fn told_on<R: Wait + Clock + Log>(
    rt: &R,
    server: &TcpStream,
    options: &ServerOptions,
) -> Result<Result<End, SessionFault>, Fail> {
    let tally = Tally::new(options.alloc);
    let account = Account::new(rt, options.alloc, 1, server.peer_addr()?, true, &tally);
    let manager = Manager::new(options.alloc, &[], 60, 0, 10)?;
    told_over(rt, server, &account, manager, options)
}

/// Returns the reported end of an association that is rejected, if the rejection can or cannot be sent.
fn rejected<R>(rt: &R, is_cut: bool) -> Result<Result<End, SessionFault>, Fail>
where
    R: AllocGlobal + Wait + Clock + Log + Net<Listener = TcpListener, Stream = TcpStream>,
{
    let (server, _client) = asked_of_other(rt, is_cut)?;
    let options = options_of(rt.alloc())?;
    told_on(rt, &server, &options)
}

#[test]
fn a_rejection_that_is_not_sent_is_told_as_write(rt: HostRuntime) -> Result<(), Fail> {
    assert!(rt; rejected(&rt, false)? == Ok(End::Rejected));
    assert!(rt; rejected(&rt, true)? == Err(SessionFault::Write));
    Ok(())
}
