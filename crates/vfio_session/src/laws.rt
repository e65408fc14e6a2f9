//! Laws of sessions. A function here does nothing: its contract is the law.
ghost use Rattle.std.specs.Prelude.{◌≡◌, ℕ, false, List};
ghost use Rattle.vfio_session.specs.Sessions.{SessionState, fresh};
ghost use Rattle.vfio_session.specs.Inside.{IsFit};
ghost use Rattle.vfio_session.specs.Received.{received};
ghost use Rattle.vfio_session.specs.Runs.{Message, HasNoVersion, IsSilent, IsUnanswered};

/// Until a version is proposed nothing is asked of the card and nothing is answered, whatever is sent, however often, and with
/// whatever files. A session that ended is such a one too.
pub fn quiet_before_version()
    ensures { (ms : List Message) → HasNoVersion ms → IsSilent ms fresh }
{}

/// So nothing is asked and nothing is answered in any session in which no version was agreed on, also in one that offers an area.
pub fn quiet_without_version()
    ensures { (s : SessionState) (ms : List Message) → s.has_version ≡ false → HasNoVersion ms
        → IsUnanswered ms s }
{}

/// Whatever is sent, and whatever was sent before: each register that is asked for is one of BAR 0, each range of addresses and of a
/// file's bytes has some and doesn't wrap, and each vector is 0, 1 or 2. Of the files one is a mapping's, as many are vectors' as there are
/// vectors, and all others are closed.
pub fn asks_are_inside()
    ensures { (s : SessionState) (message : List ℕ) (files : ℕ) → IsFit (received s message files) files }
{}
