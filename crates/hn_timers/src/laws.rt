//! Laws of timers. Each is the contract of a function that does nothing: call it to know its law.

ghost use Rattle.hn_timers.specs.Laws.{ExpiryIsAMoment, SilenceIsAMoment, UndueIntervalStays};

/// A silent peer is expired from one moment on.
pub fn expiry_is_a_moment()
    ensures { ExpiryIsAMoment }
{}

/// A keep-alive is due from one moment on.
pub fn silence_is_a_moment()
    ensures { SilenceIsAMoment }
{}

/// Where nothing is due in an interval, nothing is until something is.
pub fn undue_interval_stays()
    ensures { UndueIntervalStays }
{}
