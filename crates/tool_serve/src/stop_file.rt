// The file that stops the server.
use std::fs;
use std::fs::Files;
use tool_scheduler::StopRequest;

/// Whether the server is asked to stop: something stands at this path, be it a link that leads nowhere.
pub(crate) fn stop_request<R: Files>(rt: &R, path: Option<&str>) -> StopRequest {
    match path {
        None => StopRequest::Never,
        Some(path) if fs::symlink_metadata(rt, path).is_ok() => StopRequest::Made,
        Some(_) => StopRequest::NotYet,
    }
}
