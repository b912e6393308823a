//! Many sessions: the replies of workers that share places, the asks of a connection (link), and the bytes written to it.
//! Also what a server that shares one board says at its end.
//!
//! | Item | What it is | Where |
//! |---|---|---|
//! | `ManyFits`, `RunsBy` | what sessions may reply that workers serve | specs/Workers |
//! | `Interleaves` | what workers had, in the order of the asks | specs/Workers |
//! | `link_asks_of` | what the bytes of a link ask, up to the first QUIT, and how it ends | specs/Link |
//! | `link_out` | what is written to it of the replies | specs/Link |
//! | `LinkEnd` | how the service of a link ended | src/link_end |
//! | `LinkMoves`, `ServesLink` | what was read of a link and written to it, by how that ended | specs/Link |
//! | `serve_out` | the lines that say how links ended | specs/Lines |
//! | `RunsOver` | the exchanges of many links, each a session of its own | specs/Links |
#![tactic(auto)]

ghost use Rattle.std.specs.Prelude.{◌≡◌, ◌≤◌, ◌<◌, ℕ, Bool, List, [], ◌∷◌, ◌++◌, length, take, map, Some};
ghost use Rattle.std.specs.List.{filter, flat_map};
ghost use Rattle.spec_text.specs.Lines.{lines_of, ended_lines_of, input_limit};
ghost use Rattle.spec_model.specs.Model.{Model};
ghost use Rattle.spec_board.specs.Places.{ExactPlace, Logged, Plays};
ghost use Rattle.spec_board.specs.Orders.{InPairs, AreInOrder, AreBacked, HaveOneOrder, published_by};
ghost use Rattle.spec_server.specs.declared.addressing.Addressing.TheVariants.{Alone};
ghost use Rattle.spec_server.specs.declared.asks.Ask.TheVariants as ask;
ghost use Rattle.spec_server.specs.declared.asks.Asked.{Asked};
ghost use Rattle.spec_server.specs.Machine.{ExactAsk, AreKept, is_memory};
ghost use Rattle.spec_server.specs.Exchanges.{Exchange, asked_in, of_session, RunAlone, RunFits};
ghost use Rattle.spec_server.specs.Streams.{Streams, streams};
ghost use Rattle.spec_truth.specs.Agree.{HasMemory, RepliesAgree};
ghost use Rattle.spec_truth.specs.LoadedFrom.{IsLoadedFrom};
ghost use Rattle.spec_serve.specs.declared.link_end.LinkEnd.{LinkEnd as link_end_of};
ghost use Rattle.spec_serve.specs.Workers.{RunsBy, ManyFits, reads_in_all, exchanges_of_worker, asks_of_worker};
ghost use Rattle.spec_serve.specs.Workers.{Interleaves, HasServedAlone, logs_of};
ghost use Rattle.spec_serve.specs.Link.{ended_link_asks_of, link_asks_of, link_out, LinkMoves, ServesLink};

mod link_end;

pub use link_end::LinkEnd;

/// The models that a link asks its session to hold may be kept, and its edits have numbers and bounds that a kept model
/// may have. So it is of all requests of a link, of those of its lines that end, and of those of a service.
pub fn links_ask_kept_models()
    ensures whole { (bytes : List ℕ) → AreKept (link_asks_of bytes).asks }
    ensures ended { (bytes : List ℕ) → AreKept (ended_link_asks_of bytes) }
    ensures served { (places : ℕ) (s : Streams) (exchanges : List Exchange) → LinkMoves places s exchanges →
        AreKept (map asked_in exchanges) }
{}

/// The exchanges of a link are a run of sessions in which session 0 is asked alone: each law about such runs holds of
/// them.
pub fn links_run_alone()
    ensures { (places : ℕ) (s : Streams) (exchanges : List Exchange) → LinkMoves places s exchanges →
        RunAlone places exchanges }
{}

/// Whatever bytes a link sends, there is a service that reads them all, answers all that they ask with memory enough,
/// and writes all replies.
pub fn links_can_be_served()
    ensures { (places : ℕ) (bytes : List ℕ) →
        (exchanges : List Exchange) × (end : link_end_of)
        × ServesLink places (streams (Some bytes) (Some []) (Some []) (Some (link_out exchanges))) exchanges end
        × (map asked_in exchanges ≡ (link_asks_of bytes).asks)
        × (filter (λ x. is_memory x.reply) exchanges ≡ []) }
{}

/// A model that a link asks its session to hold is spelled by the lines after a line with the command LOAD. These are
/// lines of all bytes of the link, or those that end, and in a service those of the bytes that were read. Past the
/// limit on bytes they are lines that end within it.
pub fn models_of_links_are_spelled()
    ensures ended { (bytes : List ℕ) (before behind : List (Asked ExactAsk)) (session : ℕ) (m : Model) →
        ended_link_asks_of bytes ≡ before ++ record { session = session; ask = ask.Loaded m } ∷ behind →
        IsLoadedFrom Alone (ended_lines_of (take input_limit bytes)) before session m }
    ensures whole { (bytes : List ℕ) (before behind : List (Asked ExactAsk)) (session : ℕ) (m : Model) →
        length bytes ≤ input_limit →
        (link_asks_of bytes).asks ≡ before ++ record { session = session; ask = ask.Loaded m } ∷ behind →
        IsLoadedFrom Alone (lines_of bytes) before session m }
    ensures served { (places : ℕ) (s : Streams) (before behind : List Exchange) (x : Exchange) (m : Model)
        (moves : LinkMoves places s (before ++ x ∷ behind)) → x.ask ≡ ask.Loaded m →
        length moves.read ≤ input_limit →
        IsLoadedFrom Alone (lines_of moves.read) (map asked_in before) x.session m }
    ensures served_past { (places : ℕ) (s : Streams) (before behind : List Exchange) (x : Exchange) (m : Model)
        (moves : LinkMoves places s (before ++ x ∷ behind)) → x.ask ≡ ask.Loaded m →
        input_limit < length moves.read →
        IsLoadedFrom Alone (ended_lines_of (take input_limit moves.read)) (map asked_in before) x.session m }
{}

/// Whatever sessions a worker serves: of what it reads, a count never falls, and a place that was done, or that it
/// published, is below each later count and read as done ever after. No place is published twice.
pub fn reads_stay_in_order()
    ensures order { (places : ℕ) (now last : List ExactPlace) (log : List Logged) (serves : ℕ → Bool) →
        Plays places now log last →
        InPairs AreInOrder (map (λ (x : Logged). x.read) (filter (λ x. serves x.session) log)) }
    ensures once { (places : ℕ) (now last : List ExactPlace) (log : List Logged) →
        Plays places now log last →
        InPairs (λ (j k : ℕ). j ≡ k → ⊥) (flat_map (λ (x : Logged). published_by x.read) log) }
{}

/// Exchanges that one worker may have, answering the requests one after the other, any number of workers may have.
pub fn one_worker_is_many()
    ensures { (places workers : ℕ) (xs : List Exchange) → RunFits places xs → RunsBy workers places xs }
{}

/// The exchanges that workers had beside each other, each with its own requests, can stand in the order of the
/// requests. It is then what many workers may reply, if each answered its own requests alone and in order, and all that
/// was read is backed and stands in one order.
pub fn workers_are_many()
    ensures interleave { (workers : ℕ) (asks : List (Asked ExactAsk)) (had : ℕ → List Exchange) →
        ((worker : ℕ) → map asked_in (had worker) ≡ asks_of_worker workers worker asks) →
        Interleaves workers asks had }
    ensures fits { (places workers : ℕ) (xs : List Exchange) → 0 < workers →
        ((worker : ℕ) → worker < workers → HasServedAlone places (exchanges_of_worker workers worker xs)) →
        AreBacked (reads_in_all xs) → HaveOneOrder places workers (logs_of workers xs) → ManyFits places workers xs }
{}

/// Runs of the same requests, by any workers and places, give a session the same replies, if memory runs out for it in
/// neither. Replies may differ to `HOW` and `CERT`; one may answer where the other is `PAST` or `SPENT`; and of two
/// exact solves one may be `OPEN`, or their lines behind the first may differ.
pub fn workers_agree()
    ensures { (workers workers' places places' session : ℕ) (xs ys : List Exchange) →
        RunsBy workers places xs → RunsBy workers' places' ys → map asked_in xs ≡ map asked_in ys →
        HasMemory (of_session session xs) → HasMemory (of_session session ys) →
        RepliesAgree (of_session session xs) (of_session session ys) }
{}
